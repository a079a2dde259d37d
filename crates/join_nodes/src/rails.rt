// The joining of every node to each rail, and the output's planes, from a module type and its labels' planes, four words each.
ghost use Rattle.std.specs.Prelude.{◌≡◌};
ghost use Rattle.switch.specs.Records.{TypeGiven, EdgesGiven, type_of, type_with};
ghost use Rattle.switch.specs.Promises.{rails_of, planes_of};

use crate::conduction::gate_planes;
use crate::edges::spread;
use crate::rounds::Network;
use switch::{Edge, ModuleType, Planes, Rails};

// Under which of 256 vectors each node is joined to supply, and to ground, and in how many rounds, by a lent slice of a type's edges and its three numbers, apart as in `complementary`.
pub fn joining(
    edges: &[Edge],
    highest: u8,
    output: u8,
    labels: u8,
    ones: &[u64; 48],
    zeros: &[u64; 48],
) -> Rails
    requires { EdgesGiven highest output labels edges.now }
    ensures { result ≡ rails_of (type_with highest output labels edges.now) ones.now zeros.now }
{
    let parts = spread(edges);
    let mut planes = [0u64; 128];
    gate_planes::<4>(ones, zeros, &mut planes);
    let network = Network::<4> {
        highest,
        edges: &parts[..edges.len()],
        planes: &planes,
    };
    let mut supply = [0u64; 128];
    let to_supply = network.join_rail(1, &mut supply);
    let mut ground = [0u64; 128];
    let to_ground = network.join_rail(0, &mut ground);
    Rails {
        rounds: to_supply.max(to_ground),
        supply,
        ground,
    }
}

// The same, on a type whose edges are lent.
pub fn join_type(t: ModuleType, ones: &[u64; 48], zeros: &[u64; 48]) -> Rails
    requires { TypeGiven t }
    ensures { result ≡ rails_of (type_of t) ones.now zeros.now }
{
    joining(
        &t.edges[..t.count],
        t.highest,
        t.output,
        t.labels,
        ones,
        zeros,
    )
}

// The planes of an output, from its two words: 1 where it is joined to supply, 0 where it is joined to ground, X where it is joined to neither.
pub fn output_planes(supply: u64, ground: u64) -> Planes
    ensures { result ≡ planes_of supply ground }
{
    Planes {
        ones: supply,
        zeros: ground & !supply,
    }
}
