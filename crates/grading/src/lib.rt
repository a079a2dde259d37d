// What a grading answers: its counts, or why there are none. And a row as one number.
#![tactic(auto)]

ghost use Rattle.std.specs.Prelude.{◌≡◌};
ghost use Rattle.grading.specs.declared.Ungraded.TheVariants.{Refused};

pub mod answers;
pub mod codes;

use circuit::refusal::Refusal;

// The counts of a grading, and the rounds of joining: the greatest distance of a joined node from its rail.
#[derive(Clone, Copy, Debug, Default, PartialEq, Eq)]
pub struct Counts {
    pub vectors: usize,
    pub faults: usize,
    pub classes: usize,
    pub found: usize,
    pub rounds: usize,
}

// Why there is no grading: the file is refused, the matrix needs this many words, or the class buffer this many entries.
#[derive(Clone, Copy, Debug, PartialEq, Eq)]
pub enum Ungraded {
    Refused(Refusal),
    ShortMatrix(usize),
    ShortClasses(usize),
}

impl From<Refusal> for Ungraded {
    ghost from_gives = { λ why ungraded. ungraded ≡ Refused why };

    fn from(why: Refusal) -> Ungraded {
        Ungraded::Refused(why)
    }
}

// A grading's counts, or why there is none.
pub type Answer = Result<Counts, Ungraded>;
