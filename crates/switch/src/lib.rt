// Switch-level modules: the limits of a module type and the records that the other crates hand on. The code is in the crate `join_nodes`.
#![tactic(auto)]

ghost use Rattle.std.specs.Prelude.{◌≡◌};
ghost use Rattle.switch.specs.Records.{unused_type};

mod edges;

// The limits of a module type: its edges, its nodes (0 to 31) and its labels.
pub const MOST_EDGES: usize = 256;

pub const MOST_NODES: usize = 32;

pub const MOST_LABELS: usize = 12;

// An edge of a module type, one transistor: its two nodes, its label, its channel and the tag it came with in one number, which its methods make and take apart. So the edges of a type fill half a kilobyte.
// The default, of number 0, is what stands in the places of a type that no edge fills.
#[derive(Clone, Copy, Default)]
pub struct Edge {
    pub code: u16,
}

// A module type: highest node, output node, number of labels, and its edges, in the first `count` places.
// There is no heap, so an array with a count.
#[derive(Clone, Copy)]
pub struct ModuleType {
    pub highest: u8,
    pub output: u8,
    pub labels: u8,
    pub count: usize,
    pub edges: [Edge; MOST_EDGES],
}

// What stands in the unused places for types.
impl Default for ModuleType {
    ghost is_default = { λ t. t ≡ unused_type };

    fn default() -> ModuleType {
        ModuleType {
            highest: 0,
            output: 0,
            labels: 0,
            count: 0,
            edges: [Edge::default(); MOST_EDGES],
        }
    }
}

// The most rounds that joining took, which are the greatest distance of a joined node from its rail under any of 256 vectors; and four words for each node and each rail: under which of them the node is joined to it.
// The number comes first: behind the arrays it makes the compiler keep the record twice.
#[derive(Clone, Copy)]
pub struct Rails {
    pub rounds: usize,
    pub supply: [u64; 128],
    pub ground: [u64; 128],
}

// The known-1 plane and the known-0 plane of one value under 64 vectors.
#[derive(Clone, Copy)]
pub struct Planes {
    pub ones: u64,
    pub zeros: u64,
}
