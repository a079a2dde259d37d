// The parts of a circuit's lines. A line is sought by its number, part by part: where it is one of a part's lines the search breaks off with it, and else it goes on with how far the number is past the part's last line.
ghost use Rattle.std.specs.Prelude.{◌≡◌, map, ◌+◌, ◌<◌, ◌≤◌, length, slice_get, Some};
ghost use Rattle.std.specs.ControlFlow.{MatchControlFlow};
ghost use Rattle.std.specs.Fn.{FnOnceReturnsAt};
ghost use Rattle.switch.specs.Modules.{most_edges};
ghost use Rattle.switch.specs.Records.{edges_of, type_of};
ghost use Rattle.circuit.specs.Circuit.{numbered, no_type};
ghost use Rattle.circuit.specs.Limits.{most_types, most_bridges, most_instances, most_vectors};
ghost use Rattle.print_circuit.specs.Lines.{edge_line, bridge_line, instance_line, vector_line};
ghost use Rattle.print_circuit.specs.Listing.{numbered_lines, grouped_lines, type_lines, inputs_lines};
ghost use Rattle.print_circuit.specs.Told.{listed_told, instance_told, vector_told};
ghost use Rattle.print_circuit.specs.Sought.{FindsLine, most_of_type, most_of_types};

use crate::lines::{
    Line, bridge_line, edge_line, inputs_line, instance_line, type_line, vector_line,
};
use crate::used::used;
use circuit::{Bridge, Instance, Vector};
use std::ops::ControlFlow;
use switch::{Edge, ModuleType};

// The line of the inputs, none where no inputs field was read.
pub fn inputs_part(inputs: usize, n: usize) -> ControlFlow<Line, usize>
    ensures { FindsLine (inputs_lines inputs) 1 n result }
{
    if inputs == 0 {
        return ControlFlow::Continue(n);
    }
    if n == 0 {
        return ControlFlow::Break(inputs_line(inputs));
    }
    ControlFlow::Continue(n - 1)
}

// Things that have a line each: what makes it is handed over.
fn item_part<T, F: FnOnce(&T) -> Line>(
    items: &[T],
    n: usize,
    line_of: F,
) -> ControlFlow<Line, usize>
    requires { n < length items.now → F.IsAlwaysCallable line_of }
    ensures { MatchControlFlow result (λ left. n ≡ length items.now + left)
        (λ line. (item : T) × (slice_get items.now n ≡ Some item) × FnOnceReturnsAt F.FnOnce line_of item line) }
{
    match items.get(n) {
        Some(item) => ControlFlow::Break(line_of(item)),
        None => ControlFlow::Continue(n - items.len()),
    }
}

fn edge_part(edges: &[Edge], n: usize) -> ControlFlow<Line, usize>
    requires { length edges.now ≤ most_edges }
    ensures { FindsLine (map edge_line (edges_of edges.now)) most_edges n result }
{
    item_part(edges, n, edge_line)
}

// A type's own line, and behind it those of its edges.
fn one_type(number: usize, t: &ModuleType, n: usize) -> ControlFlow<Line, usize>
    ensures { FindsLine (type_lines number (type_of t.now)) most_of_type n result }
{
    if n == 0 {
        return ControlFlow::Break(type_line(number, t));
    }
    edge_part(used(&t.edges, t.count), n - 1)
}

pub fn type_part(types: &[ModuleType], n: usize) -> ControlFlow<Line, usize>
    requires { length types.now ≤ most_types }
    ensures { FindsLine (grouped_lines type_lines 1 (map type_of types.now)) most_of_types n result }
{
    let mut left = n;
    for (i, t) in types.iter().enumerate() {
        left = one_type(i + 1, t, left)?;
    }
    ControlFlow::Continue(left)
}

pub fn bridge_part(bridges: &[Bridge], n: usize) -> ControlFlow<Line, usize>
    requires { length bridges.now ≤ most_bridges }
    ensures { FindsLine (map bridge_line (map listed_told bridges.now)) most_bridges n result }
{
    item_part(bridges, n, bridge_line)
}

// How many labels the type with this number has, 0 where there is none.
fn labels_of(types: &[ModuleType], number: u8) -> usize
    ensures { result ≡ (numbered (map type_of types.now) number no_type).labels }
{
    let Some(place) = usize::from(number).checked_sub(1) else {
        return 0;
    };
    types.get(place).map_or(0, |t| usize::from(t.labels))
}

pub fn instance_part(
    instances: &[Instance],
    types: &[ModuleType],
    n: usize,
) -> ControlFlow<Line, usize>
    requires { length instances.now ≤ most_instances }
    ensures { FindsLine (numbered_lines instance_line 1 (map (instance_told (map type_of types.now)) instances.now)) most_instances n result }
{
    item_part(instances, n, |instance| {
        instance_line(n + 1, instance, labels_of(types, instance.type_number))
    })
}

pub fn vector_part(vectors: &[Vector], inputs: usize, n: usize) -> ControlFlow<Line, usize>
    requires { length vectors.now ≤ most_vectors }
    ensures { FindsLine (numbered_lines vector_line 1 (map (vector_told inputs) vectors.now)) most_vectors n result }
{
    item_part(vectors, n, |v| vector_line(n + 1, v, inputs))
}
