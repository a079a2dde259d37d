// Grading a file or a circuit: reading, the refusals of the buffers, then the rows, instance by instance, and the classes of all of them.
ghost use Rattle.std.specs.Prelude.{◌+◌, ◌*◌, ◌/◌, ◌≤◌, ◌≡◌, length, replicate};
ghost use Rattle.grade_inputs.specs.Inputs.{ones_of, zeros_of, input_words};
ghost use Rattle.circuit.specs.Circuit.{Circuit as CircuitMeant};
ghost use Rattle.circuit.specs.Records.{circuit_record};
ghost use Rattle.circuit.specs.Laws.{CircuitGood};
ghost use Rattle.grading.specs.Buffers.{buffers_of};
ghost use Rattle.grading.specs.Given.{CircuitGiven, Read};
ghost use Rattle.grading.specs.CircuitPromise.{PromiseOfCircuit};
ghost use Rattle.grading.specs.Promise.{Promise, PromiseOfRead};
ghost use Rattle.grade_file.specs.Model.{Graded, RowsMarked};

use circuit::limits::{MOST_FAULTS, MOST_VECTORS};
use circuit::{Circuit, Reading, Vector};
use grade_classes::{class_rows, write_keys};
use grade_inputs::{Signals, put_signals};
use grade_marks::instance::mark_instance;
use grade_rows::list_rows;
use grading::{Answer, Counts, Ungraded};
use read_file::read::read_stages;

// The signals of vectors, put into signals that are 0. The vectors are handed over whole, so that their copy is done with here: lent by the caller it takes 2 KB of stack more.
fn put_inputs(vectors: [Vector; MOST_VECTORS], count: usize, signals: &mut Signals)
    requires count_bound { count ≤ 256 }
    requires signals_value { (signals.old.ones ≡ replicate 768 0) × (signals.old.zeros ≡ replicate 768 0) }
    ensures { (signals.new.ones ≡ input_words (ones_of vectors) ((count + 63) / 64)) × (signals.new.zeros ≡ input_words (zeros_of vectors) ((count + 63) / 64)) }
{
    put_signals(&vectors, count.div_ceil(64), signals);
}

// The rows of a circuit listed, marked and keyed, instance by instance; answers the rounds that joining took.
// The arrays are taken out of the circuit, each once: one that is indexed inside it makes the compiler copy the circuit whole, and its bridges and vectors again. So it does with a circuit that is lent, which takes 6,960 bytes of stack more.
// The signals are put before types, bridges and instances are taken, so that the compiler lays these where the vectors were.
fn mark_rows(c: Circuit, matrix: &mut [u64], codes: &mut [u32; MOST_FAULTS]) -> usize
    requires circuit_given { CircuitGiven c }
    requires matrix_len { 4 * c.faults ≤ length matrix.old }
    ensures { (meant : CircuitMeant) → c ≡ circuit_record meant → CircuitGood meant → RowsMarked meant matrix.old matrix.new codes.new result }
{
    let mut signals = Signals {
        ones: [0u64; 768],
        zeros: [0u64; 768],
    };
    put_inputs(c.vectors, c.vector_count, &mut signals);
    let types = c.types;
    let bridges = c.bridges;
    let instances = c.instances;
    let mut from: usize = 0;
    let mut rounds: usize = 0;
    for (i, one) in instances[..c.instance_count].iter().enumerate() {
        let t = types[(one.type_number as usize) - 1];
        let to = list_rows(*one, t, &bridges[..c.bridge_count], i, codes, from);
        let its_rounds = mark_instance(
            t,
            *one,
            i,
            c.vector_count,
            &codes[from..to],
            &mut signals,
            &mut matrix[4 * from..4 * to],
        );
        write_keys(codes, from, to, i, *one, t.output);
        rounds = rounds.max(its_rounds);
        from = to;
    }
    rounds
}

// The counts of a circuit whose buffers are long enough, with its rows and classes written.
fn fill_buffers(c: Circuit, matrix: &mut [u64], classes: &mut [u16]) -> Counts
    requires circuit_given { CircuitGiven c }
    requires matrix_len { 4 * c.faults ≤ length matrix.old }
    requires classes_len { c.faults ≤ length classes.old }
    ensures { (meant : CircuitMeant) → c ≡ circuit_record meant → CircuitGood meant → Graded meant result matrix.old classes.old matrix.new classes.new }
{
    let mut codes = [0u32; MOST_FAULTS];
    let rounds = mark_rows(c, matrix, &mut codes);
    let classed = class_rows(&codes[..c.faults], matrix, classes);
    Counts {
        vectors: c.vector_count,
        faults: c.faults,
        classes: classed.count as usize,
        found: classed.found,
        rounds,
    }
}

// A circuit that reading gives: the counts, with the matrix and the classes written, or the buffer that is too short, with both as they were.
// That reading gives it is asked (`CircuitGiven`, and `Read` of a reading), and no invariant of the type: `show_piece` promises its lines of any record at all.
pub fn grade_circuit(c: Circuit, matrix: &mut [u64], classes: &mut [u16]) -> Answer
    requires { CircuitGiven c }
    ensures { PromiseOfCircuit c (buffers_of matrix.old classes.old) result (buffers_of matrix.new classes.new) }
{
    let faults = c.faults;
    let words = 4 * faults;
    if matrix.len() < words {
        return Err(Ungraded::ShortMatrix(words));
    }
    if classes.len() < faults {
        return Err(Ungraded::ShortClasses(faults));
    }
    Ok(fill_buffers(c, matrix, classes))
}

// A file as it was read, for a caller that keeps its circuit: what its circuit answers, or the refusal, with both buffers as they were.
pub fn grade_read(reading: Reading, matrix: &mut [u64], classes: &mut [u16]) -> Answer
    requires { Read reading }
    ensures { PromiseOfRead reading (buffers_of matrix.old classes.old) result (buffers_of matrix.new classes.new) }
{
    match reading.refusal {
        Some(why) => Err(why.into()),
        None => grade_circuit(reading.circuit, matrix, classes),
    }
}

// Any bytes and any buffers.
pub fn grade(file: &[u8], matrix: &mut [u64], classes: &mut [u16]) -> Answer
    ensures { Promise file.now (buffers_of matrix.old classes.old) result (buffers_of matrix.new classes.new) }
{
    grade_read(read_stages(file, true), matrix, classes)
}
