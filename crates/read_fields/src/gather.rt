// The fields of a stage that are all of one kind, each judged after those before it and kept as an item.
ghost use Rattle.std.specs.Prelude.{◌≡◌, ◌<◌, ℕ, length, Ok, Err};
ghost use Rattle.circuit.specs.Kinds.{of_kind};
ghost use Rattle.read_fields.specs.Gathers.{GatheredAs};

use crate::Field;
use crate::cursor::Reader;
use circuit::order::Kind;
use circuit::refusal::Refusal;

// How a stage ended: why, if a field was refused; where; and how many fields were kept.
#[derive(Clone, Copy)]
pub struct Gathered {
    pub refusal: Option<Refusal>,
    pub at: usize,
    pub count: usize,
}

// The fields of a kind from an offset on, up to the first that `judge` refuses after those before it. What it keeps of the others stands in `all`, in their order.
pub fn gather<'a, T: Copy, J: Fn(Field<'a>, usize) -> Result<T, Refusal>>(
    file: &'a [u8],
    from: usize,
    kind: Kind,
    all: &mut [T],
    judge: J,
) -> Gathered
    requires callable { J.IsAlwaysCallable judge }
    requires room { (f : _) (n : ℕ) (item : T) → J.post judge f n (Ok item) → n < length all.old }
    ensures { GatheredAs file.now (of_kind kind) from (λ f n item. J.post judge f n (Ok item)) (λ f n refusal. J.post judge f n (Err refusal)) all.old all.new result }
{
    let mut reader = Reader::new(file, from);
    // counted by hand: an iterator over the fields could not say where the reader stands at its end
    let mut count = 0;
    while let Some(f) = reader.next_of(kind) {
        match judge(f, count) {
            Ok(item) => all[count] = item,
            Err(refusal) => {
                return Gathered {
                    refusal: Some(refusal),
                    at: f.at,
                    count,
                };
            }
        }
        count += 1;
    }
    Gathered {
        refusal: None,
        at: reader.at,
        count,
    }
}
