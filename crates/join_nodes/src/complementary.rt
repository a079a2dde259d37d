// The complementary check: over all settings of a type's labels, 64 at a time, with only the running verdict kept.
ghost use Rattle.std.specs.Prelude.{◌≡◌, ◌<◌, ◌≤◌, ◌*◌, ◌^◌};
ghost use Rattle.switch.specs.Records.{TypeGiven, EdgesGiven, type_of, type_with};
ghost use Rattle.switch.specs.Deciding.{is_complementary};
ghost use Rattle.switch.specs.Blocks.{block_holds, by_blocks};
ghost use Rattle.switch.specs.Modules.{most_labels, most_nodes};
ghost use Rattle.join_nodes.specs.Model.{PartsGiven, type_in_parts, OutputTold};

use crate::MOST_GATES;
use crate::conduction::gate_planes;
use crate::edges::{Parts, spread};
use crate::rounds::Network;
use crate::settings::{setting_ones, setting_zeros};
use switch::{Edge, MOST_NODES, ModuleType};
use words::first_ones;

// A type whose edges are taken apart.
#[derive(Clone, Copy)]
struct TypeInParts<'a> {
    highest: u8,
    output: u8,
    labels: u8,
    edges: &'a [Parts],
    ghost given: { PartsGiven highest output labels edges.now },
}

impl TypeInParts<'_> {
    // Whether the output is joined to exactly one rail under each setting, block by block.
    fn is_complementary(&self) -> bool
        ensures { result ≡ by_blocks (type_in_parts self.now.highest self.now.output self.now.labels self.now.edges.now) }
    {
        (0..settings_of(self.labels).div_ceil(64)).all(|block| self.block_holds(block))
    }

    // Whether it is under each setting of a block.
    fn block_holds(&self, block: usize) -> bool
        requires { 64 * block < 2 ^ self.now.labels }
        ensures { result ≡ block_holds (type_in_parts self.now.highest self.now.output self.now.labels self.now.edges.now) block }
    {
        let mut planes = [0u64; MOST_GATES];
        gate_planes::<1>(&setting_ones(block), &setting_zeros(block), &mut planes);
        let network = Network::<1> {
            highest: self.highest,
            edges: self.edges,
            planes: &planes,
        };
        let supply = output_word(&network, self.output, 1);
        let ground = output_word(&network, self.output, 0);
        let counted = first_ones(settings_of(self.labels) - 64 * block);
        let one = (supply | ground) & !(supply & ground);
        one & counted == counted
    }
}

// The word of an output for a rail, under 64 settings of the labels.
fn output_word(network: &Network<1>, output: u8, rail: usize) -> u64
    requires { (output < most_nodes) × (rail < most_nodes) }
    ensures { OutputTold network.now.edges.now network.now.planes.now output rail result }
{
    let mut joined = [0u64; MOST_NODES];
    network.join_rail(rail, &mut joined);
    joined[output as usize]
}

// How many settings some labels have.
fn settings_of(labels: u8) -> usize
    requires { labels ≤ most_labels }
    ensures { (result ≡ 2 ^ labels) × (result ≤ 4096) }
{
    1 << labels
}

// Whether a type is complementary, told by a lent slice of its edges and its three numbers. They stay apart: edges are handed on as one list of records, as docs/DECISIONS.md has it under Language forms.
pub fn complementary(edges: &[Edge], highest: u8, output: u8, labels: u8) -> bool
    requires { EdgesGiven highest output labels edges.now }
    ensures { result ≡ is_complementary (type_with highest output labels edges.now) }
{
    let parts = spread(edges);
    let edges = &parts[..edges.len()];
    TypeInParts {
        highest,
        output,
        labels,
        edges,
    }
    .is_complementary()
}

// The same, on a type whose edges are lent.
pub fn check_type(t: ModuleType) -> bool
    requires { TypeGiven t }
    ensures { result ≡ is_complementary (type_of t) }
{
    complementary(&t.edges[..t.count], t.highest, t.output, t.labels)
}
