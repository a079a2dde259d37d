// A pass transistor: a field with tag 7, which is one edge and states its channel.
ghost use Rattle.std.specs.Prelude.{◌≡◌};
ghost use Rattle.switch.specs.Conduction.{stated};
ghost use Rattle.switch.specs.Records.{edge_record};
ghost use Rattle.circuit.specs.Table.{pass_in_range};
ghost use Rattle.read_fields.specs.Gathers.{JudgedAs};
ghost use Rattle.read_types.specs.EdgeTurns.{verdict_as, pass_edge, HasRoom};

use circuit::refusal::Refusal;
use read_fields::Field;
use switch::{Edge, MOST_EDGES, ModuleType};

// Whether the nodes are two different ones up to h, the channel is one of the two, and the label is below k.
#[tactic(auto, unfolding(circuit::specs::Table::pass_in_range))]
fn pass_in_range(h: u8, k: u8, a: u8, b: u8, channel: u8, label: u8) -> bool
    ensures { result ≡ pass_in_range h k a b channel label }
{
    a <= h && b <= h && a != b && channel <= 1 && label < k
}

// Its edge, in a type as far as it is read; or the first test of the table that refuses it.
#[tactic(auto, unfolding(circuit::specs::Table::edge_tests_of, circuit::specs::Table::first_of, circuit::specs::Table::pass_in_range, circuit::specs::Known::edges_told))]
pub fn pass_in(f: Field, t: &ModuleType) -> Result<Edge, Refusal>
    requires { HasRoom t.now }
    ensures { JudgedAs (verdict_as stated t.now f.entry) (edge_record (pass_edge f.entry.body.now)) result }
{
    let [a, b, channel, label] = f.body else {
        return Err(Refusal::WrongLength(f.at));
    };
    if MOST_EDGES <= t.count {
        return Err(Refusal::TooMany(f.at));
    }
    if !pass_in_range(t.highest, t.labels, *a, *b, *channel, *label) {
        return Err(Refusal::OutOfRange(f.at));
    }
    Ok(Edge::new(*a, *b, *label, *channel == 1, true))
}
