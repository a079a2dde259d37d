// Why a file is refused, a case for each reason of the table, with its place where the table gives one. A file with nothing against it has none of them.
ghost use Rattle.std.specs.Prelude.{◌≡◌};
ghost use Rattle.circuit.specs.Refusals.{refusal_number, refusal_place};

#[derive(Clone, Copy, Debug, PartialEq, Eq)]
pub enum Refusal {
    TooLong,
    Broken(usize),
    UnknownTag(usize),
    Misplaced(usize),
    WrongLength(usize),
    TooMany(usize),
    OutOfRange(usize),
    BadEnds(usize),
    NotComplementary(usize),
    BadReference(usize),
    BridgeUnsuited(usize),
    EmptyList(usize),
    TooManyFaults(usize),
    Unfinished(usize),
}

impl Refusal {
    // The table's number.
    pub fn number(self) -> u32
        ensures { result ≡ refusal_number self }
    {
        match self {
            Refusal::TooLong => 1,
            Refusal::Broken(_) => 2,
            Refusal::UnknownTag(_) => 3,
            Refusal::Misplaced(_) => 4,
            Refusal::WrongLength(_) => 5,
            Refusal::TooMany(_) => 6,
            Refusal::OutOfRange(_) => 7,
            Refusal::BadEnds(_) => 8,
            Refusal::NotComplementary(_) => 9,
            Refusal::BadReference(_) => 10,
            Refusal::BridgeUnsuited(_) => 11,
            Refusal::EmptyList(_) => 12,
            Refusal::TooManyFaults(_) => 13,
            Refusal::Unfinished(_) => 14,
        }
    }

    // The place, 0 where the table gives none.
    pub fn place(self) -> usize
        ensures { result ≡ refusal_place self }
    {
        match self {
            Refusal::TooLong => 0,
            Refusal::Broken(at)
            | Refusal::UnknownTag(at)
            | Refusal::Misplaced(at)
            | Refusal::WrongLength(at)
            | Refusal::TooMany(at)
            | Refusal::OutOfRange(at)
            | Refusal::BadEnds(at)
            | Refusal::NotComplementary(at)
            | Refusal::BadReference(at)
            | Refusal::BridgeUnsuited(at)
            | Refusal::EmptyList(at)
            | Refusal::TooManyFaults(at)
            | Refusal::Unfinished(at) => at,
        }
    }
}
