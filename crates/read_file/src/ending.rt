// The end of a file: after the last vector nothing may stand, and an instance and, where it is wanted, a vector must have been there.
ghost use Rattle.std.specs.Prelude.{◌≡◌, ◌≤◌, length, Some};
ghost use Rattle.circuit.specs.Fields.{cut_from};
ghost use Rattle.circuit.specs.Order.{tag_of};
ghost use Rattle.circuit.specs.Refusals.{verdict_of};
ghost use Rattle.circuit.specs.Stages.{ended_verdict, past_verdict, ending_verdict};

use circuit::order::Kind;
use circuit::refusal::Refusal;
use read_fields::Step;
use read_fields::cursor::Reader;

#[tactic(auto, unfolding(circuit::specs::Stages::ended_verdict))]
fn at_end(size: usize, instances: usize, vectors: usize, vector_wanted: bool) -> Option<Refusal>
    ensures { verdict_of result ≡ ended_verdict vector_wanted size instances vectors }
{
    let unfinished = instances == 0 || vector_wanted && vectors == 0;
    unfinished.then_some(Refusal::Unfinished(size))
}

#[tactic(auto, unfolding(circuit::specs::Stages::past_verdict, circuit::specs::Order::is_kind))]
fn at_field(tag: u8, at: usize) -> Refusal
    ensures { verdict_of (Some result) ≡ past_verdict (tag_of tag) at }
{
    match Kind::from(tag) {
        Kind::Unknown => Refusal::UnknownTag(at),
        _ => Refusal::Misplaced(at),
    }
}

#[tactic(auto, unfolding(circuit::specs::Stages::ending_verdict, read_fields::specs::Steps::StepIs, read_fields::specs::Steps::field_in))]
pub fn ending(
    file: &[u8],
    at: usize,
    instances: usize,
    vectors: usize,
    vector_wanted: bool,
) -> Option<Refusal>
    requires { at ≤ length file.now }
    ensures { verdict_of result ≡ ending_verdict vector_wanted (length file.now) instances vectors (cut_from file.now at) }
{
    match Reader::new(file, at).step() {
        Step::End => at_end(file.len(), instances, vectors, vector_wanted),
        Step::Broken => Some(Refusal::Broken(at)),
        Step::Whole(f) => Some(at_field(f.tag, at)),
    }
}
