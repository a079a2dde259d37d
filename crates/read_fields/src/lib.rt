// The file cut into fields, a step at a time.
#![tactic(auto)]

pub mod cursor;
pub mod gather;

ghost use Rattle.std.specs.Prelude.{◌≡◌, get_or};
ghost use Rattle.circuit.specs.Fields.{two_bytes};
ghost use Rattle.circuit.specs.Kinds.{of_kind};
ghost use Rattle.read_fields.specs.Steps.{own_field};

use circuit::order::Kind;

// A whole field: the offset of its tag byte, its tag, and its body.
#[derive(Clone, Copy)]
pub struct Field<'a> {
    pub at: usize,
    pub tag: u8,
    pub body: &'a [u8],
}

// What stands at an offset: a whole field, no whole field, or the end of the file.
// Neither an Option nor a Result: a stage ends at both, and the ending alone tells a file that is whole from one that is broken.
#[derive(Clone, Copy)]
pub enum Step<'a> {
    Whole(Field<'a>),
    Broken,
    End,
}

impl<'a> Step<'a> {
    // The field that was told, if it is of the kind. A stage knows its own fields by this test alone.
    #[tactic(auto, using(crate::proofs::KindLaws::kinds), unfolding(crate::specs::Steps::own_field))]
    pub fn of_kind(self, kind: Kind) -> Option<Field<'a>>
        ensures { result ≡ own_field (of_kind kind) self.entry }
    {
        let Step::Whole(f) = self else {
            return None;
        };
        (Kind::from(f.tag) == kind).then_some(f)
    }
}

impl<'a> Field<'a> {
    // A byte of the body, 0 past its end.
    pub fn byte(self, i: usize) -> u8
        ensures { result ≡ get_or self.entry.body.now i 0 }
    {
        self.body.get(i).copied().unwrap_or(0)
    }

    // Two bytes of the body as a number, high byte first.
    pub fn two_bytes(self, i: usize) -> usize
        ensures { result ≡ two_bytes self.entry.body.now i }
    {
        u16::from_be_bytes([self.byte(i), self.byte(i.saturating_add(1))]) as usize
    }
}
