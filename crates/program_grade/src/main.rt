// Grades circuit files: for each, the report of the scope paper, or its refusal.
#![tactic(auto)]

ghost use Rattle.grading.specs.Given.{Read};
ghost use Rattle.program_grade.specs.Handing.{line_of_file, lines_of_file, HandsOn, AllHanded, ReportPut, InputsReported, RowsRead};
ghost use Rattle.program_grade.specs.Held.{FileHeld};
ghost use Rattle.program_grade.specs.Told.{report_is_told};

use circuit::Reading;
use circuit::limits::{MOST_BYTES, MOST_FAULTS};
use grade_file::grade::grade_read;
use grade_rows::rows_of;
use grading::{Answer, Counts};
use print_lines::Piece;
use print_report::{Held, report_piece};
use program_io::holding::{Holding, tell_inputs_with};
use program_io::output::Printer;
use read_file::read::read_stages;
use std::io::Write;
use std::rt::{Env, Files};

// One byte more than the limit is enough to know that a file is too long.
const MOST_READ: usize = MOST_BYTES + 1;

// A matrix has four words for each row.
const MOST_WORDS: usize = 4 * MOST_FAULTS;

// The rows of the circuit that was read, a number each; zeros where the file is refused.
fn rows_read(reading: Reading) -> [u32; MOST_FAULTS]
    requires { Read reading }
    ensures { RowsRead reading result }
{
    match reading.refusal {
        Some(_) => [0u32; MOST_FAULTS],
        None => rows_of(reading.circuit),
    }
}

// What grading left of a file: its answer, the rows as numbers, the matrix and the classes. One is made for all files, so that its arrays are set to 0 once.
#[derive(Drop)]
struct Report {
    answer: Answer,
    codes: [u32; MOST_FAULTS],
    matrix: [u64; MOST_WORDS],
    classes: [u16; MOST_FAULTS],
}

impl Holding for Report {
    ghost line = { line_of_file };

    ghost total = { lines_of_file };

    ghost hands_on = { HandsOn };

    ghost all_handed = { AllHanded };

    ghost put = { ReportPut };

    ghost is_of = { λ report file. FileHeld file report.answer report.codes report.matrix report.classes };

    fn hold(&mut self, file: &[u8]) {
        let reading = read_stages(file, true);
        self.answer = grade_read(reading, &mut self.matrix, &mut self.classes);
        self.codes = rows_read(reading);
    }

    fn piece(&self, from: usize, out: &mut [u8]) -> Piece {
        let held = Held {
            answer: self.answer,
            codes: &self.codes,
            matrix: &self.matrix,
            classes: &self.classes,
        };
        report_piece(&held, from, out)
    }

    ghost hands_on_is = { λ file lines piece out. (λ told. told, λ told. told) };

    ghost all_handed_is = { λ file lines. (λ told. told, λ told. told) };

    ghost put_is = { report_is_told };
}

// Prints the report of each input.
fn grade<R: Env + Files + Input + Eprint, W: Write>(printer: &mut Printer<R, W>, file: &mut [u8])
    ensures { InputsReported printer.old.output printer.new.output (W.contents printer.old.writer) (W.contents printer.new.writer) }
{
    let mut report = Report {
        answer: Ok(Counts::default()),
        codes: [0u32; MOST_FAULTS],
        matrix: [0u64; MOST_WORDS],
        classes: [0u16; MOST_FAULTS],
    };
    tell_inputs_with(printer, &mut report, file);
}

fn main(rt: HostRuntime) {
    let mut file = [0u8; MOST_READ];
    grade(&mut Printer::new(&rt, rt.stdout()), &mut file);
}
