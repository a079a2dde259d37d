// Types: each is a field, followed at once by its edges, and is judged when its edges are read.
ghost use Rattle.std.specs.Prelude.{◌≡◌, ◌≤◌, length, Some};
ghost use Rattle.switch.specs.Modules.{type_in_range};
ghost use Rattle.circuit.specs.Fields.{cut_from};
ghost use Rattle.circuit.specs.Order.{tag_of};
ghost use Rattle.circuit.specs.Table.{first_of, type_tests};
ghost use Rattle.circuit.specs.Refusals.{verdict_of};
ghost use Rattle.circuit.specs.Stages.{failing_before, failing_verdict};
ghost use Rattle.read_fields.specs.Gathers.{JudgedAs};
ghost use Rattle.read_types.specs.ReadTypes.{shape_of, TypeRead, TypesRead};

use crate::edges::{Shape, read_edges};
use circuit::limits::MOST_TYPES;
use circuit::order::Kind;
use circuit::refusal::Refusal;
use join_nodes::complementary::check_type;
use read_fields::cursor::Reader;
use read_fields::{Field, Step};
use switch::ModuleType;

// The types that were read, and where the stage ended, with the refusal if it ended at a type that is refused.
// No Result: what was read before a refusal is told too. There is no heap, so an array with a count, and `TypesRead` names each.
#[derive(Clone, Copy)]
pub struct Types {
    pub refusal: Option<Refusal>,
    pub at: usize,
    pub count: usize,
    pub all: [ModuleType; MOST_TYPES],
}

// The shape that a type's field says after `count` types, or the first test of the table that refuses it.
#[tactic(auto, unfolding(circuit::specs::Table::type_tests, circuit::specs::Table::first_of))]
fn shape_in(f: Field, count: usize) -> Result<Shape, Refusal>
    ensures { JudgedAs (first_of (type_tests count f.entry.at f.entry.body.now)) (shape_of f.entry.body.now) result }
{
    let [highest, output, labels] = f.body else {
        return Err(Refusal::WrongLength(f.at));
    };
    if MOST_TYPES <= count {
        return Err(Refusal::TooMany(f.at));
    }
    let shape = Shape {
        highest: *highest,
        output: *output,
        labels: *labels,
    };
    if !in_range(shape) {
        return Err(Refusal::OutOfRange(f.at));
    }
    Ok(shape)
}

#[tactic(auto, unfolding(switch::specs::Modules::type_in_range, switch::specs::Conduction::between))]
fn in_range(s: Shape) -> bool
    ensures { result ≡ type_in_range s.highest s.output s.labels }
{
    (2..=31).contains(&s.highest)
        && (2..=s.highest).contains(&s.output)
        && (1..=12).contains(&s.labels)
}

// The refusal of a type that is not complementary, before a field with this tag.
#[tactic(auto, unfolding(circuit::specs::Stages::failing_before, circuit::specs::Order::is_kind, circuit::specs::Order::may_follow, switch::specs::Conduction::between))]
fn failing_before(tag: u8, at: usize, type_at: usize) -> Refusal
    ensures { verdict_of (Some result) ≡ failing_before (tag_of tag) at type_at }
{
    match Kind::from(tag) {
        Kind::Unknown => Refusal::UnknownTag(at),
        Kind::Inputs => Refusal::Misplaced(at),
        _ => Refusal::NotComplementary(type_at),
    }
}

// The refusal of a type that is not complementary: 9 once the next field has passed 2, 3 and 4, or at the end of the file.
#[tactic(auto, unfolding(circuit::specs::Stages::failing_verdict, read_fields::specs::Steps::StepIs, read_fields::specs::Steps::behind_step, read_fields::specs::Steps::field_in))]
fn failing(mut reader: Reader, type_at: usize) -> Refusal
    ensures { verdict_of (Some result) ≡ failing_verdict type_at (cut_from reader.entry.file.now reader.entry.at) }
{
    match reader.step() {
        Step::End => Refusal::NotComplementary(type_at),
        Step::Broken => Refusal::Broken(reader.at),
        Step::Whole(f) => failing_before(f.tag, f.at, type_at),
    }
}

// The type of a field after `count` types, with its edges, to whose end the reader goes; or why it is refused.
fn read_type(reader: &mut Reader, f: Field, count: usize) -> Result<ModuleType, Refusal>
    requires { reader.old.at ≤ length reader.old.file.now }
    ensures { TypeRead reader.old reader.new f.entry count result }
{
    let shape = shape_in(f, count)?;
    let t = read_edges(reader, shape)?;
    if !check_type(t) {
        return Err(failing(*reader, f.at));
    }
    Ok(t)
}

// The types from an offset on, read by one reader, which moves behind each type's edges.
pub fn read_types(file: &[u8], from: usize) -> Types
    requires { from ≤ length file.now }
    ensures { TypesRead file.now from result }
{
    // not by `gather`: the reader goes on through each type's edges
    let mut reader = Reader::new(file, from);
    let mut all = [ModuleType::default(); MOST_TYPES];
    let mut count = 0;
    while let Some(f) = reader.next_of(Kind::Module) {
        match read_type(&mut reader, f, count) {
            Ok(t) => all[count] = t,
            Err(refusal) => {
                return Types {
                    refusal: Some(refusal),
                    at: f.at,
                    count,
                    all,
                };
            }
        }
        count += 1;
    }
    Types {
        refusal: None,
        at: reader.at,
        count,
        all,
    }
}
