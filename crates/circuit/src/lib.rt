// The circuit that a file tells, and the refusals of the table.
#![tactic(auto)]

ghost use Rattle.std.specs.Prelude.{◌≡◌};
ghost use Rattle.circuit.specs.Records.{unused_reference, unused_instance};

pub mod limits;
pub mod order;
pub mod refusal;

use crate::limits::{MOST_BRIDGES, MOST_INSTANCES, MOST_TYPES, MOST_VECTORS};
use crate::refusal::Refusal;
use switch::{MOST_LABELS, ModuleType};

// A bridge of a user list, its bytes as in the file; zeros in the places that no bridge fills.
// The kind is a byte too, and no enum, since a row's number hands it to C as it is.
#[derive(Clone, Copy, Default)]
pub struct Bridge {
    pub list: u8,
    pub kind: u8,
    pub first: u8,
    pub second: u8,
}

// What a label is tied to: the primary input of this number, or the output of the earlier instance of this number.
#[derive(Clone, Copy)]
pub enum Reference {
    Input(u8),
    Earlier(u8),
}

// What stands in the places for labels that a type does not have.
impl Default for Reference {
    ghost is_default = { λ r. r ≡ unused_reference };

    fn default() -> Reference {
        Reference::Input(0)
    }
}

// An instance: type number, list choice as in the file, and a reference for each label of its type.
// The choice is a byte, since it is compared with the list numbers of bridges, and an enum would say no more than 0 and 255 do.
#[derive(Clone, Copy)]
pub struct Instance {
    pub type_number: u8,
    pub choice: u8,
    pub references: [Reference; MOST_LABELS],
}

// What stands in the unused places for instances.
impl Default for Instance {
    ghost is_default = { λ i. i ≡ unused_instance };

    fn default() -> Instance {
        Instance {
            type_number: 0,
            choice: 0,
            references: [Reference::default(); MOST_LABELS],
        }
    }
}

// A vector: the primary inputs that are 1, and those that are 0, input 1 at bit 0; zeros in the places that no vector fills.
#[derive(Clone, Copy, Default)]
pub struct Vector {
    pub ones: u64,
    pub zeros: u64,
}

// A circuit. Of each array the first places are used, as many as its count says; every other place holds the default.
// There is no heap, so these are arrays with counts, and the theorems on `circuit_record` name each.
#[derive(Clone, Copy)]
pub struct Circuit {
    pub inputs: usize,
    pub type_count: usize,
    pub types: [ModuleType; MOST_TYPES],
    pub bridge_count: usize,
    pub bridges: [Bridge; MOST_BRIDGES],
    pub instance_count: usize,
    pub instances: [Instance; MOST_INSTANCES],
    pub faults: usize,
    pub vector_count: usize,
    pub vectors: [Vector; MOST_VECTORS],
}

// What reading answers: why the file is refused, or no refusal and its circuit.
// No `Result`, since beside a refusal `read` promises an empty circuit, and `read_stages` what was read before it.
#[derive(Clone, Copy)]
pub struct Reading {
    pub refusal: Option<Refusal>,
    pub circuit: Circuit,
}
