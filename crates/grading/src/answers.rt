// An answer's number, place and counts, as the paper has them; 0 where it has none.
ghost use Rattle.std.specs.Prelude.{◌≡◌};
ghost use Rattle.grading.specs.Promise.{number_why, place_why, number_of, place_of, counts_meant, counts_of};

use crate::{Answer, Counts, Ungraded};

impl Ungraded {
    pub fn number(self) -> u32
        ensures { result ≡ number_why self }
    {
        match self {
            Ungraded::Refused(why) => why.number(),
            Ungraded::ShortMatrix(_) => 15,
            Ungraded::ShortClasses(_) => 22,
        }
    }

    pub fn place(self) -> usize
        ensures { result ≡ place_why self }
    {
        match self {
            Ungraded::Refused(why) => why.place(),
            Ungraded::ShortMatrix(words) => words,
            Ungraded::ShortClasses(faults) => faults,
        }
    }
}

pub fn number_of(answer: Answer) -> u32
    ensures { result ≡ number_of answer }
{
    match answer {
        Ok(_) => 0,
        Err(why) => why.number(),
    }
}

pub fn place_of(answer: Answer) -> usize
    ensures { result ≡ place_of answer }
{
    match answer {
        Ok(_) => 0,
        Err(why) => why.place(),
    }
}

pub fn counts_of(answer: Answer) -> Counts
    ensures { counts_meant result ≡ counts_of answer }
{
    answer.unwrap_or_default()
}
