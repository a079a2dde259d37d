// The rows of a circuit, a number each.
#![tactic(auto)]

ghost use Rattle.std.specs.Prelude.{◌≡◌, map, ◌+◌, ◌<◌, ◌≤◌, length};
ghost use Rattle.words.specs.Written.{written};
ghost use Rattle.circuit.specs.Circuit.{Circuit as CircuitMeant, node_pairs, node_inputs};
ghost use Rattle.circuit.specs.Records.{padded, circuit_record};
ghost use Rattle.circuit.specs.Laws.{CircuitGood};
ghost use Rattle.grading.specs.Codes.{code_of, codes_of};
ghost use Rattle.grading.specs.Rows.{rows_of};
ghost use Rattle.grading.specs.Given.{CircuitGiven};
ghost use Rattle.grade_rows.specs.Model.{codes_from, listed_codes, instance_codes, RowsListed};

use circuit::limits::MOST_FAULTS;
use circuit::{Bridge, Circuit, Instance};
use grading::codes::pack;
use switch::ModuleType;

// The rows of one kind and one first, with each second from `from` to below `to`.
fn put_codes(
    rows: &mut [u32],
    at: usize,
    instance: u32,
    kind: u32,
    first: u32,
    from: u32,
    to: u32,
) -> usize
    requires instance_bound { (instance < 256) × (kind < 256) × (first < 256) × (from ≤ to) × (to ≤ 256) }
    requires to_in_bounds { at + length (codes_from instance kind first from to) ≤ length rows.old }
    ensures { (result ≡ at + length (codes_from instance kind first from to)) × (rows.new ≡ written rows.old at (codes_from instance kind first from to)) }
{
    for second in from..to {
        rows[at + (second - from) as usize] = pack(instance, kind, first, second);
    }
    at + (to - from) as usize
}

// Kind 0, all pairs of nodes 0 to h.
fn all_pairs(rows: &mut [u32], at: usize, instance: u32, h: u32) -> usize
    requires instance_bound { (instance < 256) × (h < 32) }
    requires h_in_bounds { at + length (node_pairs h) ≤ length rows.old }
    ensures { (result ≡ at + length (node_pairs h)) × (rows.new ≡ written rows.old at (map (code_of instance) (node_pairs h))) }
{
    let mut next = at;
    for a in 0..h + 1 {
        next = put_codes(rows, next, instance, 0, a, a + 1, h + 1);
    }
    next
}

// Kind 1, each node 0 to h with each of k labels.
fn all_inputs(rows: &mut [u32], at: usize, instance: u32, h: u32, k: u32) -> usize
    requires instance_bound { (instance < 256) × (h < 32) × (k ≤ 12) }
    requires k_in_bounds { at + length (node_inputs h k) ≤ length rows.old }
    ensures { (result ≡ at + length (node_inputs h k)) × (rows.new ≡ written rows.old at (map (code_of instance) (node_inputs h k))) }
{
    let mut next = at;
    for m in 0..h + 1 {
        next = put_codes(rows, next, instance, 1, m, 0, k);
    }
    next
}

// The bridges of a user list, in file order.
fn listed(rows: &mut [u32], at: usize, instance: u32, list: u8, bridges: &[Bridge]) -> usize
    requires instance_bound { instance < 256 }
    requires bridges_in_bounds { at + length (listed_codes instance list bridges.now) ≤ length rows.old }
    ensures { (result ≡ at + length (listed_codes instance list bridges.now)) × (rows.new ≡ written rows.old at (listed_codes instance list bridges.now)) }
{
    let mut next = at;
    for b in bridges {
        if b.list == list {
            rows[next] = pack(instance, b.kind as u32, b.first as u32, b.second as u32);
            next += 1;
        }
    }
    next
}

// The rows of the instance at a place, with t its type, from a place among the codes on; answers where they end.
// Put into its two callers, since a call that lends the bridges makes the compiler keep the circuit whole: 4.6 KB more of stack.
#[inline(always)]
pub fn list_rows(
    one: Instance,
    t: ModuleType,
    bridges: &[Bridge],
    place: usize,
    codes: &mut [u32; MOST_FAULTS],
    from: usize,
) -> usize
    requires place_bound { (place < 128) × (t.highest < 32) × (t.labels ≤ 12) }
    requires bridges_in_bounds { from + length (instance_codes place one.choice t.highest t.labels bridges.now) ≤ length codes.old }
    ensures { RowsListed codes.old from (instance_codes place one.choice t.highest t.labels bridges.now) result codes.new }
{
    let number = (place as u32) + 1;
    let h = t.highest as u32;
    match one.choice {
        255 => {
            let at = all_pairs(codes, from, number, h);
            all_inputs(codes, at, number, h, t.labels as u32)
        }
        0 => from,
        list => listed(codes, from, number, list, bridges),
    }
}

// The rows of a circuit, in instance order. The arrays are taken out of the circuit, so that the compiler does not copy it whole.
pub fn rows_of(c: Circuit) -> [u32; MOST_FAULTS]
    requires { CircuitGiven c }
    ensures { (meant : CircuitMeant) → c ≡ circuit_record meant → CircuitGood meant → result ≡ padded 2048 0 (codes_of (rows_of meant)) }
{
    let types = c.types;
    let bridges = c.bridges;
    let instances = c.instances;
    let used = &bridges[..c.bridge_count];
    let mut codes = [0u32; MOST_FAULTS];
    let mut at: usize = 0;
    for (i, one) in instances[..c.instance_count].iter().enumerate() {
        let t = types[(one.type_number as usize) - 1];
        at = list_rows(*one, t, used, i, &mut codes, at);
    }
    codes
}
