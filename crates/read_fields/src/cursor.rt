// A reader: the file, and its place in it.
ghost use Rattle.std.specs.Prelude.{◌≡◌};
ghost use Rattle.circuit.specs.Kinds.{of_kind};
ghost use Rattle.read_fields.specs.Steps.{StepIs, Stepped, Sought};

use crate::{Field, Step};
use circuit::order::Kind;

#[derive(Clone, Copy)]
pub struct Reader<'a> {
    pub file: &'a [u8],
    pub at: usize,
}

impl<'a> Reader<'a> {
    // A reader over a file, at a place of it.
    pub fn new(file: &'a [u8], at: usize) -> Reader<'a>
        ensures { (result.file ≡ file.entry) × (result.at ≡ at) }
    {
        Reader { file, at }
    }

    // The step to the next field: it is told, and the reader's place moves behind it. Where no whole field stands, the place stays.
    #[tactic(auto, unfolding(crate::specs::Steps::StepIs, crate::specs::Steps::behind_step))]
    pub fn step(&mut self) -> Step<'a>
        ensures { Stepped self.old self.new result }
    {
        let step = cut_at(self.file, self.at);
        if let Step::Whole(f) = step {
            self.at += 3 + f.body.len();
        }
        step
    }

    // The field of a kind, where one stands next: the reader goes behind it, and else stays.
    #[tactic(auto, unfolding(crate::specs::Steps::StepIs, crate::specs::Steps::NextIs, crate::specs::Steps::own_field, crate::specs::Steps::behind_step, crate::specs::Steps::behind_found, crate::specs::Steps::field_in))]
    pub fn next_of(&mut self, kind: Kind) -> Option<Field<'a>>
        ensures { Sought (of_kind kind) self.old self.new result }
    {
        let mut ahead = *self;
        let f = ahead.step().of_kind(kind)?;
        *self = ahead;
        Some(f)
    }
}

// What stands at a place: three bytes before each body say its field's tag and the body's length, high byte first.
#[tactic(auto, using(crate::proofs::Cuts::cuts), unfolding(crate::specs::Steps::StepIs))]
fn cut_at<'a>(file: &'a [u8], at: usize) -> Step<'a>
    ensures { StepIs file.now at result }
{
    if file.len() <= at {
        return Step::End;
    }
    let [tag, high, low, rest @ ..] = &file[at..] else {
        return Step::Broken;
    };
    let len = u16::from_be_bytes([*high, *low]) as usize;
    match rest.get(..len) {
        Some(body) => Step::Whole(Field {
            at,
            tag: *tag,
            body,
        }),
        None => Step::Broken,
    }
}
