// Classes: a key for each row, the numbers of the two wires that its bridge joins, which two rows share exactly when they are one class; one search for
// the class of each row; and the found classes.
#![tactic(auto)]

ghost use Rattle.std.specs.Prelude.{◌≡◌, ◌+◌, ◌*◌, ◌<◌, ◌≤◌, eqb, length};
ghost use Rattle.words.specs.Written.{written};
ghost use Rattle.grading.specs.Classes.{largest, classes_by};
ghost use Rattle.grading.specs.Codes.{CodeFits, CodesFit};
ghost use Rattle.grading.specs.Wires.{node_wire};
ghost use Rattle.grade_classes.specs.Model.{wire_number, reference_number, label_numbers, pair_key, key_of, keys_of, bucket_of, found_from, RowsClassed};

use circuit::limits::MOST_FAULTS;
use circuit::{Instance, Reference};
use grading::codes::{first_in, kind_in, second_in};

// The number of a node's wire, of the instance with this number, whose type has this output node.
fn node_wire(instance: u32, output: u32, node: u32) -> u32
    requires { (instance < 256) × (node < 256) }
    ensures { result ≡ wire_number (node_wire instance output node) }
{
    if node < 2 {
        return node;
    }
    if node == output {
        return 67 + instance;
    }
    256 + (32 * instance + node)
}

// The number of a label's wire, which is that of its reference.
#[tactic(auto, unfolding(crate::specs::Model::reference_number, crate::specs::Model::wire_number))]
fn reference_wire(reference: Reference) -> u16
    ensures { result ≡ reference_number reference }
{
    match reference {
        Reference::Input(n) => 2 + u16::from(n),
        Reference::Earlier(i) => 67 + u16::from(i),
    }
}

// The numbers of the wires of an instance's labels.
fn label_wires(one: Instance) -> [u16; 12]
    ensures { result ≡ label_numbers one.references }
{
    let mut wires = [0u16; 12];
    for (l, reference) in one.references.iter().enumerate() {
        wires[l] = reference_wire(*reference);
    }
    wires
}

// One number for two wires, whichever comes first.
#[tactic(auto, unfolding(crate::specs::Model::pair_key))]
fn pair_key(a: u32, b: u32) -> u32
    requires { (a < 65536) × (b < 65536) }
    ensures { result ≡ pair_key a b }
{
    8192 * a.min(b) + a.max(b)
}

// The key of a row of the instance with this number: the two wires that its bridge joins. `labels` has the wires of the instance's labels.
fn key_of(code: u32, instance: u32, output: u32, labels: [u16; 12]) -> u32
    requires { CodeFits code × (instance < 256) }
    ensures { result ≡ key_of instance output labels code }
{
    let first = node_wire(instance, output, first_in(code));
    let second = second_in(code);
    let kind = kind_in(code);
    if kind == 0 {
        return pair_key(first, node_wire(instance, output, second));
    }
    pair_key(first, labels[second as usize] as u32)
}

// Writes the key of each row of the instance at place i over its code, which is not read again.
pub fn write_keys(
    codes: &mut [u32; MOST_FAULTS],
    from: usize,
    to: usize,
    i: usize,
    one: Instance,
    output: u8,
)
    requires from_le_to { (from ≤ to) × (to ≤ 2048) × (i < 128) }
    requires codes_fit { CodesFit codes.old from to }
    ensures { codes.new ≡ written codes.old from (keys_of codes.old (i + 1) output (label_numbers one.references) from to) }
{
    let labels = label_wires(one);
    let instance = (i as u32) + 1;
    for code in &mut codes[from..to] {
        *code = key_of(*code, instance, output as u32, labels);
    }
}

// Rows with one key have one bucket.
fn bucket_of(key: u32) -> usize
    ensures { result ≡ bucket_of key }
{
    (key % 251) as usize
}

// Numbers the rows: each takes the class of the first earlier row with its key, or else the next new number. The search looks at first rows of classes
// alone, those of the key's bucket from the last to the first: `heads` has a bucket's last one and `nexts` the one before a row, each as the row's place
// plus 1, with 0 for none: as an `Option` each takes four bytes, and the function 4 KB more of stack.
fn number_rows(keys: &[u32], classes: &mut [u16]) -> u16
    requires { (length keys.now ≤ 2048) × (length keys.now ≤ length classes.old) }
    ensures { (result ≡ largest (classes_by eqb keys.now)) × (classes.new ≡ written classes.old 0 (classes_by eqb keys.now)) }
{
    let mut heads = [0u16; 251];
    let mut nexts = [0u16; MOST_FAULTS];
    let mut count: u16 = 0;
    for (r, &key) in keys.iter().enumerate() {
        let bucket = bucket_of(key);
        let mut next = heads[bucket];
        // a loop and no iterator, which would have to tell 0 from a place at each step
        let class = loop {
            if next == 0 {
                break count + 1;
            }
            let j = (next as usize) - 1;
            if keys[j] == key {
                break classes[j];
            }
            next = nexts[j];
        };
        if count < class {
            count = class;
            nexts[r] = heads[bucket];
            heads[bucket] = (r as u16) + 1;
        }
        classes[r] = class;
    }
    count
}

// How many classes are found: rows of one class have equal marks, so the first row tells.
fn found_in(matrix: &[u64], classes: &[u16]) -> usize
    requires { 4 * length classes.now ≤ length matrix.now }
    ensures { result ≡ found_from matrix.now classes.now 0 (length classes.now) 0 }
{
    let mut found: usize = 0;
    let mut last: u16 = 0;
    for (r, &class) in classes.iter().enumerate() {
        if last < class {
            last = class;
            if (matrix[4 * r] | matrix[4 * r + 1] | matrix[4 * r + 2] | matrix[4 * r + 3]) != 0 {
                found += 1;
            }
        }
    }
    found
}

// The number of classes, and how many of them are found.
#[derive(Clone, Copy)]
pub struct Classed {
    pub count: u16,
    pub found: usize,
}

// The classes of all rows, by their keys, and how many of them the matrix finds.
pub fn class_rows(keys: &[u32], matrix: &[u64], classes: &mut [u16]) -> Classed
    requires rows_bound { length keys.now ≤ 2048 }
    requires rows_in_bounds { (4 * length keys.now ≤ length matrix.now) × (length keys.now ≤ length classes.old) }
    ensures { RowsClassed keys.now matrix.now classes.old result classes.new }
{
    let count = number_rows(keys, classes);
    let found = found_in(matrix, &classes[..keys.len()]);
    Classed { count, found }
}
