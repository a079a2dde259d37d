// Reading a file: its start, the stages in file order, and then the ending.
ghost use Rattle.std.specs.Prelude.{◌≡◌, ◌≤◌, length, take, Some};
ghost use Rattle.circuit.specs.Limits.{most_bridges};
ghost use Rattle.circuit.specs.Fields.{two_bytes};
ghost use Rattle.circuit.specs.Table.{first_of, inputs_tests};
ghost use Rattle.circuit.specs.Reading.{reading_of};
ghost use Rattle.circuit.specs.Records.{circuit_record, empty_circuit};
ghost use Rattle.circuit.specs.Answers.{Answers};
ghost use Rattle.read_fields.specs.Gathers.{JudgedAs};
ghost use Rattle.read_bridges.specs.ListSums.{ListedBridges, SummedTo};
ghost use Rattle.read_file.specs.ReadStages.{ReadByStages};
ghost use Rattle.read_file.specs.Whole.{StartRead, whole_of};

use crate::ending::ending;
use circuit::limits::{MOST_BRIDGES, MOST_BYTES, MOST_INSTANCES, MOST_TYPES, MOST_VECTORS};
use circuit::order::Kind;
use circuit::refusal::Refusal;
use circuit::{Bridge, Circuit, Instance, Reading, Vector};
use read_bridges::lists::{ListSum, lists_of};
use read_bridges::{Bridges, read_bridges};
use read_fields::Field;
use read_fields::cursor::Reader;
use read_instances::{Held, Instances, read_instances};
use read_types::types::{Types, read_types};
use read_vectors::{Vectors, read_vectors};
use switch::ModuleType;

// The circuit with nothing in it.
#[tactic(auto, using(crate::proofs::ReadLaws::empty_record))]
fn empty_circuit() -> Circuit
    ensures { result ≡ circuit_record empty_circuit }
{
    Circuit {
        inputs: 0,
        type_count: 0,
        types: [ModuleType::default(); MOST_TYPES],
        bridge_count: 0,
        bridges: [Bridge::default(); MOST_BRIDGES],
        instance_count: 0,
        instances: [Instance::default(); MOST_INSTANCES],
        faults: 0,
        vector_count: 0,
        vectors: [Vector::default(); MOST_VECTORS],
    }
}

// The refusal, beside an empty circuit.
fn refused(refusal: Refusal) -> Reading
    ensures { result ≡ record { refusal = Some refusal; circuit = circuit_record empty_circuit } }
{
    Reading {
        refusal: Some(refusal),
        circuit: empty_circuit(),
    }
}

// The number of inputs that the inputs field says, or the first test of the table that refuses it.
#[tactic(auto, unfolding(circuit::specs::Table::inputs_tests, circuit::specs::Table::first_of, switch::specs::Conduction::between))]
fn inputs_in(f: Field) -> Result<usize, Refusal>
    ensures { JudgedAs (first_of (inputs_tests f.entry.at f.entry.body.now)) (two_bytes f.entry.body.now 0) result }
{
    if f.body.len() != 2 {
        return Err(Refusal::WrongLength(f.at));
    }
    let inputs = f.two_bytes(0);
    if !(1..=64).contains(&inputs) {
        return Err(Refusal::OutOfRange(f.at));
    }
    Ok(inputs)
}

// The answer put together from the refusal that counts and what the stages have read.
fn whole(
    refusal: Option<Refusal>,
    inputs: usize,
    types: Types,
    bridges: Bridges,
    instances: Instances,
    vectors: Vectors,
) -> Reading
    ensures { result ≡ whole_of refusal inputs types bridges instances vectors }
{
    // Arrays by names of their own: the check covers no array's field that stands in a literal.
    let all_types = types.all;
    let all_bridges = bridges.all;
    let all_instances = instances.all;
    let all_vectors = vectors.all;
    let circuit = Circuit {
        inputs,
        type_count: types.count,
        types: all_types,
        bridge_count: bridges.count,
        bridges: all_bridges,
        instance_count: instances.count,
        instances: all_instances,
        faults: instances.faults,
        vector_count: vectors.count,
        vectors: all_vectors,
    };
    Reading { refusal, circuit }
}

// How a file starts: why it is refused there, if it is, the number of inputs, and where reading goes on. No Result: the stages are called after a refusal too.
#[derive(Clone, Copy)]
struct Start {
    refusal: Option<Refusal>,
    at: usize,
    inputs: usize,
}

// A file refused at its start, if it is. The stages then begin at its end, where they find no field.
fn ended_at_start(file: &[u8], refusal: Option<Refusal>) -> Start
    ensures { result ≡ record { refusal = refusal; at = length file.now; inputs = 0 } }
{
    Start {
        refusal,
        at: file.len(),
        inputs: 0,
    }
}

// The start of any file: its size, its first field, and the number of inputs there.
fn read_start(file: &[u8], vector_wanted: bool) -> Start
    ensures { StartRead vector_wanted file.now result }
{
    if MOST_BYTES < file.len() {
        return ended_at_start(file, Some(Refusal::TooLong));
    }
    let mut reader = Reader::new(file, 0);
    let Some(f) = reader.next_of(Kind::Inputs) else {
        return ended_at_start(file, ending(file, 0, 0, 0, vector_wanted));
    };
    match inputs_in(f) {
        Err(refusal) => ended_at_start(file, Some(refusal)),
        Ok(inputs) => Start {
            refusal: None,
            at: reader.at,
            inputs,
        },
    }
}

// The user lists in sum. By value: bridges that are lent where the circuit is put together would keep a place on the stack beside it, 1,072 bytes more.
fn lists_in(bridges: Bridges) -> [ListSum; 128]
    requires { (bridges.count ≤ most_bridges) × ListedBridges (take bridges.count bridges.all) }
    ensures { SummedTo (take bridges.count bridges.all) result }
{
    lists_of(&bridges.all[..bridges.count])
}

// Any bytes at all, of which a vector is wanted or not, which is a part of the promise (`reading_with`) and chooses no step; the first refusal counts, and beside it stands what was read before it.
// Every stage is called, also after a refusal: it then stands at a field that is not its own, and reads nothing. With a way out at each refusal the compiler would keep a place on the stack for the circuit at each.
pub fn read_stages(file: &[u8], vector_wanted: bool) -> Reading
    ensures { ReadByStages vector_wanted file.now result }
{
    let start = read_start(file, vector_wanted);
    let types = read_types(file, start.at);
    let bridges = read_bridges(file, types.at);
    let lists = lists_in(bridges);
    let held = Held {
        inputs: start.inputs,
        types: &types.all[..types.count],
        lists: &lists,
    };
    let instances = read_instances(file, bridges.at, held);
    let vectors = read_vectors(file, instances.at, start.inputs);
    let last = ending(
        file,
        vectors.at,
        instances.count,
        vectors.count,
        vector_wanted,
    );
    let refusal = start
        .refusal
        .or(types.refusal)
        .or(bridges.refusal)
        .or(instances.refusal)
        .or(vectors.refusal)
        .or(last);
    whole(refusal, start.inputs, types, bridges, instances, vectors)
}

// Any bytes at all: the circuit that they tell, or the refusal. No Result: `Answers` promises an empty circuit beside a refusal.
#[tactic(auto, using(crate::proofs::ReadLaws::told_refused, crate::proofs::ReadLaws::told_accepted))]
pub fn read(file: &[u8]) -> Reading
    ensures { Answers (reading_of file.now) result }
{
    let reading = read_stages(file, true);
    match reading.refusal {
        Some(why) => refused(why),
        None => reading,
    }
}
