// Instances: the fields with tag 5, each held to its type, to what stands before it, and to its list.
#![tactic(auto)]

mod choices;
mod references;

ghost use Rattle.std.specs.Prelude.{◌≡◌, not, ◌&&◌, List, ◌%◌, ◌≤◌, eqb, length};
ghost use Rattle.std.specs.Option.{option_copied};
ghost use Rattle.switch.specs.Conduction.{between};
ghost use Rattle.switch.specs.Modules.{ModuleType as TypeMeant};
ghost use Rattle.circuit.specs.Circuit.{Listed};
ghost use Rattle.circuit.specs.Numbers.{signed, choice_in_range};
ghost use Rattle.circuit.specs.Table.{first_of};
ghost use Rattle.read_fields.specs.Gathers.{JudgedAs};
ghost use Rattle.read_instances.specs.ReadInstances.{TypesAndLists, HeldAt, InstancesRead};
ghost use Rattle.read_instances.specs.Turns.{type_numbered, held_tests, accepted_in};

use crate::choices::faults_chosen;
use crate::references::references_in;
use circuit::Instance;
use circuit::limits::{MOST_FAULTS, MOST_INSTANCES};
use circuit::order::Kind;
use circuit::refusal::Refusal;
use read_bridges::lists::ListSum;
use read_fields::Field;
use read_fields::cursor::Reader;
use switch::ModuleType;

// The instances that were read with their faults, and where the stage ended, with the refusal if it ended at an instance that is refused.
// No Result: what was read before a refusal is told too.
#[derive(Clone, Copy)]
pub struct Instances {
    pub refusal: Option<Refusal>,
    pub at: usize,
    pub count: usize,
    pub faults: usize,
    pub all: [Instance; MOST_INSTANCES],
}

// What instances are held to: the number of primary inputs, the types, and the user lists in sum.
#[derive(Clone, Copy)]
pub struct Held<'a> {
    pub inputs: usize,
    pub types: &'a [ModuleType],
    pub lists: &'a [ListSum; 128],
}

// An instance that has passed its tests, with the faults that its list gives it.
#[derive(Clone, Copy)]
struct Accepted {
    instance: Instance,
    faults: usize,
}

#[tactic(auto, unfolding(switch::specs::Conduction::between))]
fn wrong_length(len: usize) -> bool
    ensures { result ≡ not (eqb (len % 2) 0 && between 4 26 len) }
{
    len % 2 != 0 || !(4..=26).contains(&len)
}

#[tactic(auto, unfolding(circuit::specs::Numbers::signed, circuit::specs::Numbers::choice_in_range))]
fn choice_in_range(choice: u8) -> bool
    ensures { result ≡ choice_in_range (signed 128 choice) }
{
    choice < 128 || choice == 255
}

// The type with this number, if there is one.
#[tactic(auto, unfolding(switch::specs::Conduction::between, circuit::specs::Circuit::numbered))]
fn type_numbered(types: &[ModuleType], number: u8) -> Option<&ModuleType>
    ensures { option_copied result ≡ type_numbered types.now number }
{
    types.get((number as usize).checked_sub(1)?)
}

impl Held<'_> {
    // The instance of a field after `count` instances with `faults` faults, or the first test of the table that refuses it.
    #[tactic(auto, unfolding(circuit::specs::Table::instance_tests_of, circuit::specs::Table::first_of))]
    fn instance_in(self, f: Field, count: usize, faults: usize) -> Result<Accepted, Refusal>
        requires { (self.inputs ≤ 64) × (faults ≤ 2048) }
        ensures { JudgedAs (first_of (held_tests self.entry count faults f.entry.at f.entry.body.now)) (accepted_in self.entry f.entry.body.now) result }
    {
        if wrong_length(f.body.len()) {
            return Err(Refusal::WrongLength(f.at));
        }
        if MOST_INSTANCES <= count {
            return Err(Refusal::TooMany(f.at));
        }
        let type_number = f.byte(0);
        let choice = f.byte(1);
        let Some(t) = type_numbered(self.types, type_number) else {
            return Err(Refusal::OutOfRange(f.at));
        };
        if !choice_in_range(choice) {
            return Err(Refusal::OutOfRange(f.at));
        }
        let k = t.labels as usize;
        if f.body.len() != 2 + 2 * k {
            return Err(Refusal::BadReference(f.at));
        }
        let Some(references) = references_in(f, k, self.inputs, count) else {
            return Err(Refusal::BadReference(f.at));
        };
        let given = faults_chosen(t, choice, self.lists, f.at)?;
        if MOST_FAULTS - faults < given {
            return Err(Refusal::TooManyFaults(f.at));
        }
        Ok(Accepted {
            instance: Instance {
                type_number,
                choice,
                references,
            },
            faults: given,
        })
    }
}

// The instances from an offset on, held to this.
#[tactic(auto, using(crate::proofs::InstanceLaws::room, crate::proofs::InstanceLaws::few))]
pub fn read_instances(file: &[u8], from: usize, held: Held) -> Instances
    requires { (from ≤ length file.now) × ((held.inputs ≤ 64) × HeldAt held) }
    ensures { (ts : List TypeMeant) (bs : List Listed) → TypesAndLists ts bs held.entry → InstancesRead file.now from held.entry.inputs ts bs result }
{
    // not by `gather`: of what a function that is passed in adds up, as the faults, a proof knows nothing afterwards
    let mut reader = Reader::new(file, from);
    let mut all = [Instance::default(); MOST_INSTANCES];
    let mut count = 0;
    let mut faults = 0;
    while let Some(f) = reader.next_of(Kind::Instance) {
        match held.instance_in(f, count, faults) {
            Ok(accepted) => {
                all[count] = accepted.instance;
                faults += accepted.faults;
            }
            Err(refusal) => {
                return Instances {
                    refusal: Some(refusal),
                    at: f.at,
                    count,
                    faults,
                    all,
                };
            }
        }
        count += 1;
    }
    Instances {
        refusal: None,
        at: reader.at,
        count,
        faults,
        all,
    }
}
