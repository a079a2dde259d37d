// The answer to a file, for each entry: its rows or its grading, and its numbers.
ghost use Rattle.std.specs.Prelude.{◌≤◌, true, false, ◌≡◌, length, take};
ghost use Rattle.grading.specs.Buffers.{buffers_of};
ghost use Rattle.grading.specs.Grading.{over};
ghost use Rattle.circuit.specs.Circuit.{Circuit as CircuitMeant};
ghost use Rattle.circuit.specs.Laws.{CircuitGood};
ghost use Rattle.circuit.specs.Records.{circuit_record, padded};
ghost use Rattle.grading.specs.Codes.{codes_of};
ghost use Rattle.grading.specs.Given.{CircuitGiven, Read};
ghost use Rattle.grading.specs.Rows.{rows_of};
ghost use Rattle.grading.specs.Promise.{Promise};
ghost use Rattle.togyamiru.specs.NumbersEntry.{numbers_of};
ghost use Rattle.togyamiru.specs.RowsModel.{RowsAnswer, RowsAnswerOfRead};
ghost use Rattle.togyamiru.specs.Asked.{AnswersAsked};

use circuit::{Circuit, Reading};
use grade_file::grade::grade_read;
use grade_rows::rows_of;
use grading::answers::{counts_of, number_of, place_of};
use grading::{Answer, Counts, Ungraded};
use read_file::read::read_stages;

// The rows of a circuit, at the front of a buffer that has room for them.
fn list_circuit(c: Circuit, rows: &mut [u32])
    requires given { CircuitGiven c }
    requires room { (c.faults ≤ 2048) × (c.faults ≤ length rows.old) }
    ensures { (meant : CircuitMeant) → c ≡ circuit_record meant → CircuitGood meant → rows.new ≡ over (take c.faults (padded 2048 0 (codes_of (rows_of meant)))) rows.old }
{
    let codes = rows_of(c);
    rows[..c.faults].copy_from_slice(&codes[..c.faults]);
}

// The rows of a file as it was read, with their count alone, or a refusal, with the row buffer as it was.
fn list_read(reading: Reading, rows: &mut [u32]) -> Answer
    requires { Read reading }
    ensures { RowsAnswerOfRead reading rows.old result rows.new }
{
    if let Some(why) = reading.refusal {
        return Err(why.into());
    }
    let c = reading.circuit;
    let faults = c.faults;
    if rows.len() < faults {
        return Err(Ungraded::ShortClasses(faults));
    }
    list_circuit(c, rows);
    Ok(Counts {
        faults,
        ..Counts::default()
    })
}

// What is asked of a file: its rows or its grading, each with what is lent for it.
#[derive(Drop)]
pub enum Asked<'a> {
    Rows(&'a mut [u32]),
    Grading {
        matrix: &'a mut [u64],
        classes: &'a mut [u16],
    },
}

// Any bytes, and then what is asked of them.
// All entries go through here, so that the compiler finds one call of `read_stages` and puts it into this frame: as a function of its own it takes 47 KB of stack more.
pub fn answer_to(file: &[u8], asked: Asked) -> Answer
    ensures { AnswersAsked file.now asked.entry result asked.exit }
{
    let reading = read_stages(file, true);
    match asked {
        Asked::Rows(rows) => list_read(reading, rows),
        Asked::Grading { matrix, classes } => grade_read(reading, matrix, classes),
    }
}

// The numbers of an answer: the refusal's number and its place, 0 and 0 where there is none, the counts of vectors, faults, classes and found, and the rounds.
#[tactic(auto, unfolding(crate::specs::NumbersEntry::numbers_of))]
pub fn numbers_of(answer: Answer) -> [u64; 7]
    ensures { result ≡ numbers_of answer }
{
    let counts = counts_of(answer);
    [
        number_of(answer) as u64,
        place_of(answer) as u64,
        counts.vectors as u64,
        counts.faults as u64,
        counts.classes as u64,
        counts.found as u64,
        counts.rounds as u64,
    ]
}

// As many of them as have room.
pub fn put_numbers(all: [u64; 7], numbers: &mut [u64])
    ensures { numbers.new ≡ over (take (length numbers.old) all) numbers.old }
{
    let room = numbers.len().min(all.len());
    numbers[..room].copy_from_slice(&all[..room]);
}
