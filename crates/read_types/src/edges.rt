// The edges of a type: the fields with tags 3 and 7 right after it. Those with tag 3 take their channel from their nodes.
ghost use Rattle.std.specs.Prelude.{ℕ, ◌≡◌, ◌+◌, ◌<◌, ◌≤◌, T, ltb, length, get_or, map};
ghost use Rattle.switch.specs.Conduction.{by_position, stated, channel_of, edges_for, p_ends, n_end, bad_ends};
ghost use Rattle.switch.specs.Modules.{most_edges, all_of, type_in_range};
ghost use Rattle.switch.specs.Records.{edge_record};
ghost use Rattle.circuit.specs.Records.{type_record};
ghost use Rattle.read_types.specs.EdgeTurns.{edge_tag_told, with_placed, HasRoom, EdgesAdded};
ghost use Rattle.read_types.specs.ReadTypes.{bare_of, EdgesRead};

use crate::passes::pass_in;
use circuit::order::{Kind, states_channel};
use circuit::refusal::Refusal;
use read_fields::Field;
use read_fields::cursor::Reader;
use switch::{Edge, MOST_EDGES, ModuleType};

// What a type's own field says: its highest node, its output node and its number of labels.
#[derive(Clone, Copy)]
pub struct Shape {
    pub highest: u8,
    pub output: u8,
    pub labels: u8,
}

impl Shape {
    // The type of this shape that has no edge yet.
    #[tactic(auto, using(circuit::proofs::Padding::padded_nil), unfolding(circuit::specs::Records::type_record))]
    fn bare(self) -> ModuleType
        ensures { result ≡ type_record (bare_of self) }
    {
        ModuleType {
            highest: self.highest,
            output: self.output,
            labels: self.labels,
            count: 0,
            edges: [Edge::default(); MOST_EDGES],
        }
    }
}

// Whether a node is on the n side of a type: ground, or the output or a node above it.
#[tactic(auto, unfolding(switch::specs::Conduction::n_end, switch::specs::Conduction::between))]
fn n_end(t: &ModuleType, m: u8) -> bool
    ensures { result ≡ n_end t.now.highest t.now.output m }
{
    m == 0 || (t.output..=t.highest).contains(&m)
}

// Whether an edge with these ends is p-channel.
#[tactic(auto, unfolding(switch::specs::Conduction::p_ends, switch::specs::Conduction::between))]
fn p_ends(t: &ModuleType, a: u8, b: u8) -> bool
    ensures { result ≡ p_ends t.now.output a b }
{
    (1..=t.output).contains(&a) && (1..=t.output).contains(&b)
}

#[tactic(auto, unfolding(switch::specs::Conduction::bad_ends, switch::specs::Conduction::n_ends))]
fn bad_nodes(t: &ModuleType, a: u8, b: u8) -> bool
    ensures { result ≡ bad_ends t.now.highest t.now.output a b }
{
    a == b || !(p_ends(t, a, b) || n_end(t, a) && n_end(t, b))
}

fn labels_below(labels: &[u8], k: u8) -> bool
    ensures { result ≡ all_of (λ l. ltb l k) labels.now }
{
    labels.iter().all(|l| *l < k)
}

// An edge between two nodes for each of some labels, behind the edges that a type has.
fn add_each(a: u8, b: u8, labels: &[u8], t: &mut ModuleType)
    requires nodes { (a < 32) × (b < 32) }
    requires few { (k : ℕ) → get_or labels.now k 0 < 16 }
    requires room { t.old.count + length labels.now ≤ most_edges }
    ensures { t.new ≡ with_placed t.old (map edge_record (edges_for a b (channel_of t.old.output a b) labels.now)) }
{
    let p_channel = p_ends(t, a, b);
    for l in labels {
        t.edges[t.count] = Edge::new(a, b, *l, p_channel, false);
        t.count += 1;
    }
}

// A field with tag 3: each of its one to four labels is an edge of the type, behind those that it has; or the first test of the table that refuses it.
#[tactic(auto, using(crate::proofs::EdgeBytes::rest_is, crate::proofs::EdgeBytes::rest_length), unfolding(circuit::specs::Table::edge_tests_of, circuit::specs::Table::first_of, circuit::specs::Table::edges_in_range, circuit::specs::Known::edges_told, circuit::specs::Known::edges_in, switch::specs::Conduction::between))]
fn add_labelled(f: Field, t: &mut ModuleType) -> Result<(), Refusal>
    requires { HasRoom t.old }
    ensures { EdgesAdded by_position f.entry t.old t.new result }
{
    let [a, b, labels @ ..] = f.body else {
        return Err(Refusal::WrongLength(f.at));
    };
    if !(1..=4).contains(&labels.len()) {
        return Err(Refusal::WrongLength(f.at));
    }
    if MOST_EDGES - t.count < labels.len() {
        return Err(Refusal::TooMany(f.at));
    }
    if t.highest < *a || t.highest < *b || !labels_below(labels, t.labels) {
        return Err(Refusal::OutOfRange(f.at));
    }
    if bad_nodes(t, *a, *b) {
        return Err(Refusal::BadEnds(f.at));
    }
    add_each(*a, *b, labels, t);
    Ok(())
}

// A field with tag 7: one edge.
#[tactic(auto, using(circuit::proofs::Verdicts::first_passes), unfolding(circuit::specs::Table::edge_tests_of, circuit::specs::Known::edges_told, circuit::specs::Known::edges_in, crate::specs::EdgeTurns::placed, crate::specs::EdgeTurns::with_placed))]
fn add_pass(f: Field, t: &mut ModuleType) -> Result<(), Refusal>
    requires { HasRoom t.old }
    ensures { EdgesAdded stated f.entry t.old t.new result }
{
    t.edges[t.count] = pass_in(f, t)?;
    t.count += 1;
    Ok(())
}

// An edge field, by its tag.
fn add_edges(f: Field, t: &mut ModuleType) -> Result<(), Refusal>
    requires { HasRoom t.old }
    ensures { EdgesAdded (edge_tag_told f.entry) f.entry t.old t.new result }
{
    if states_channel(f.tag) {
        add_pass(f, t)
    } else {
        add_labelled(f, t)
    }
}

// The type of this shape with its edges, which begin where the reader stands and end where it is left; or why one of them is refused.
pub fn read_edges(reader: &mut Reader, shape: Shape) -> Result<ModuleType, Refusal>
    requires { (reader.old.at ≤ length reader.old.file.now) × T (type_in_range shape.highest shape.output shape.labels) }
    ensures { EdgesRead reader.old reader.new shape result }
{
    let mut t = shape.bare();
    while let Some(f) = reader.next_of(Kind::Edge) {
        add_edges(f, &mut t)?;
    }
    Ok(t)
}
