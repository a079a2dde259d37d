// Vectors: the fields with tag 6, one letter for each primary input.
#![tactic(auto)]

ghost use Rattle.std.specs.Prelude.{◌≡◌, ◌≤◌, length};
ghost use Rattle.switch.specs.Modules.{all_of};
ghost use Rattle.circuit.specs.Known.{vector_in};
ghost use Rattle.circuit.specs.Table.{first_of, is_letter, vector_tests};
ghost use Rattle.circuit.specs.Records.{vector_record};
ghost use Rattle.read_fields.specs.Gathers.{JudgedAs};
ghost use Rattle.read_vectors.specs.ReadVectors.{VectorsRead};

use circuit::Vector;
use circuit::limits::MOST_VECTORS;
use circuit::order::Kind;
use circuit::refusal::Refusal;
use read_fields::Field;
use read_fields::gather::gather;

// The vectors that were read, and where the stage ended, with the refusal if it ended at a vector that is refused.
// No Result, since what was read before a refusal is told too; and no struct that all stages share, since a generic one may hold no array of a type parameter.
#[derive(Clone, Copy)]
pub struct Vectors {
    pub refusal: Option<Refusal>,
    pub at: usize,
    pub count: usize,
    pub all: [Vector; MOST_VECTORS],
}

// Three tests and no match: of a match the compiler makes a look-up in a word, and goes over letters one at a time.
#[tactic(auto, unfolding(circuit::specs::Table::is_letter))]
fn is_letter(b: u8) -> bool
    ensures { result ≡ is_letter b }
{
    b == b'0' || b == b'1' || b == b'X'
}

// Goes on past a byte that is no letter: without a way out of the loop the compiler takes many bytes at a time.
#[tactic(auto, using(crate::proofs::VectorLaws::letters), unfolding(switch::specs::Modules::all_of))]
fn letters_only(body: &[u8]) -> bool
    ensures { result ≡ all_of is_letter body.now }
{
    let mut only = true;
    for b in body {
        only &= is_letter(*b);
    }
    only
}

// The vector that letters tell. Two tests and no match: of a match the compiler makes jumps, and reading letters in no order takes twice the time.
#[tactic(auto, using(crate::proofs::VectorLaws::planes))]
fn vector_of(letters: &[u8]) -> Vector
    requires { length letters.now ≤ 64 }
    ensures { result ≡ vector_record (vector_in letters.now) }
{
    let mut ones: u64 = 0;
    let mut zeros: u64 = 0;
    for (i, &letter) in letters.iter().enumerate() {
        if letter == b'1' {
            ones |= 1 << i;
        }
        if letter == b'0' {
            zeros |= 1 << i;
        }
    }
    Vector { ones, zeros }
}

// The vector of a field with this many inputs and after `count` vectors, or the first test that refuses it.
#[tactic(auto, unfolding(circuit::specs::Table::vector_tests, circuit::specs::Table::first_of))]
fn vector_in(f: Field, inputs: usize, count: usize) -> Result<Vector, Refusal>
    requires { inputs ≤ 64 }
    ensures { JudgedAs (first_of (vector_tests inputs count f.entry.at f.entry.body.now)) (vector_record (vector_in f.entry.body.now)) result }
{
    if f.body.len() != inputs {
        return Err(Refusal::WrongLength(f.at));
    }
    if MOST_VECTORS <= count {
        return Err(Refusal::TooMany(f.at));
    }
    if !letters_only(f.body) {
        return Err(Refusal::OutOfRange(f.at));
    }
    Ok(vector_of(f.body))
}

// The vectors from an offset on.
pub fn read_vectors(file: &[u8], from: usize, inputs: usize) -> Vectors
    requires { (from ≤ length file.now) × (inputs ≤ 64) }
    ensures { VectorsRead file.now from inputs result }
{
    let mut all = [Vector::default(); MOST_VECTORS];
    let read = gather(
        file,
        from,
        Kind::Vector,
        &mut all,
        |f, count| vector_in(f, inputs, count),
    );
    Vectors {
        refusal: read.refusal,
        at: read.at,
        count: read.count,
        all,
    }
}
