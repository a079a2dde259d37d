// The edges of a module type, taken apart once a call: taken apart anew in each round, they make a round 3 to 8 percent slower.
ghost use Rattle.std.specs.Prelude.{◌≡◌, ◌≤◌, length, take, map};
ghost use Rattle.switch.specs.Modules.{most_edges};
ghost use Rattle.join_nodes.specs.Model.{parts_of, parts_in_places};

use switch::{Edge, MOST_EDGES};

// The parts of an edge: its nodes, and what switches it. In four bytes: with a gate of one byte, three in all, reading is 6 percent slower.
#[derive(Clone, Copy)]
pub struct Parts {
    pub first: u8,
    pub second: u8,
    pub gate: u16,
}

// What stands in the places behind the last edge: a gate that no edge has. A list to copy, since for one that is cleared or filled in place the compiler calls `memset`, and of the C library the check of a type needs memcpy alone.
const UNUSED: &[Parts; MOST_EDGES] = &[Parts {
    first: 0,
    second: 0,
    gate: 32,
}; MOST_EDGES];

impl From<Edge> for Parts {
    ghost from_gives = { λ e parts. parts ≡ parts_of e };

    fn from(e: Edge) -> Self {
        Parts {
            first: e.first(),
            second: e.second(),
            gate: u16::from(e.gate()),
        }
    }
}

// The parts of all edges, in the first places.
pub fn spread(edges: &[Edge]) -> [Parts; MOST_EDGES]
    requires { length edges.now ≤ most_edges }
    ensures whole { result ≡ parts_in_places edges.now }
    ensures front { take (length edges.now) result ≡ map parts_of edges.now }
{
    let mut parts = *UNUSED;
    for (i, edge) in edges.iter().enumerate() {
        parts[i] = Parts::from(*edge);
    }
    parts
}
