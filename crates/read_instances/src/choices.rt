// List choices: the faults that a choice gives an instance, told from the lists in sum.
ghost use Rattle.std.specs.Prelude.{◌≡◌};
ghost use Rattle.circuit.specs.Circuit.{exhaustive_size};
ghost use Rattle.circuit.specs.Table.{first_of};
ghost use Rattle.read_fields.specs.Gathers.{JudgedAs};
ghost use Rattle.read_instances.specs.Choices.{Chosen, given_by, list_tests};

use circuit::refusal::Refusal;
use read_bridges::lists::ListSum;
use switch::ModuleType;

// The number of faults of the exhaustive list, in a type with h and k.
#[tactic(auto, unfolding(circuit::specs::Circuit::exhaustive_size))]
fn exhaustive_size(h: u8, k: u8) -> usize
    ensures { result ≡ exhaustive_size h k }
{
    let nodes = h as usize + 1;
    nodes * h as usize / 2 + nodes * k as usize
}

// How many faults a choice that is in range gives an instance of a type; or the test that refuses it, before a field at an offset: the list does not suit the type, or is empty.
#[tactic(auto, unfolding(crate::specs::Choices::chosen_of, circuit::specs::Table::first_of))]
pub fn faults_chosen(
    t: &ModuleType,
    choice: u8,
    lists: &[ListSum; 128],
    at: usize,
) -> Result<usize, Refusal>
    ensures { let given : Chosen = given_by t.now choice lists.now in JudgedAs (first_of (list_tests given at)) given.faults result }
{
    if choice == 0 {
        return Ok(0);
    }
    if 128 <= choice {
        return Ok(exhaustive_size(t.highest, t.labels));
    }
    let list = lists[choice as usize];
    if t.highest < list.nodes || t.labels < list.labels {
        return Err(Refusal::BridgeUnsuited(at));
    }
    if list.count == 0 {
        return Err(Refusal::EmptyList(at));
    }
    Ok(list.count as usize)
}
