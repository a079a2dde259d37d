// The lines of the text, one thing's each.
ghost use Rattle.std.specs.Prelude.{◌≡◌, List, ℕ, [], ◌∷◌, map, ◌++◌, ◌+◌, ◌*◌, ◌<◌, ◌≤◌, length};
ghost use Rattle.words.specs.Bits.{bit};
ghost use Rattle.switch.specs.Conduction.{stated};
ghost use Rattle.switch.specs.Records.{edge_of, type_of, value_of, channel_in};
ghost use Rattle.circuit.specs.Circuit.{join_lists};
ghost use Rattle.print_circuit.specs.Lines.{spaced, inputs_line, type_line, channel_text, edge_line_by, edge_line, kind_text, bridge_line, choice_text, reference_text, instance_line, value_letter, vector_line};
ghost use Rattle.print_circuit.specs.Told.{listed_told, choice_told, reference_told, instance_with, vector_told};

use crate::used::used;
use circuit::{Bridge, Instance, Reference, Vector};
use switch::{Edge, ModuleType};

// No line is longer than 512 bytes.
pub type Line = print_lines::line::Line<512>;

// What stands in a line behind its word, with the space before it, in at most 23 bytes.
trait Field {
    ghost text: { Self → List ℕ };

    fn push_to(&self, line: &mut Line)
        requires { length line.old + 23 ≤ 512 }
        ensures text { line.new ≡ line.old ++ text self.now }
        ensures short { length line.new ≤ length line.old + 23 };
}

impl Field for usize {
    ghost text = { spaced };

    fn push_to(&self, line: &mut Line) {
        line.push(b' ');
        line.push_number(*self as u64);
    }
}

impl Field for u8 {
    ghost text = { spaced };

    fn push_to(&self, line: &mut Line) {
        usize::from(*self).push_to(line);
    }
}

// The output of an earlier instance stands below 0.
impl Field for Reference {
    ghost text = { λ reference. reference_text (reference_told reference) };

    fn push_to(&self, line: &mut Line) {
        match *self {
            Reference::Input(number) => number.push_to(line),
            Reference::Earlier(number) => {
                line.push_bytes(b" -");
                line.push_number(u64::from(number));
            }
        }
    }
}

// A list choice. Of those below 0 a file that is accepted has only -1, which is byte 255.
#[derive(Clone, Copy)]
struct Choice(u8);

impl Field for Choice {
    ghost text = { λ choice. choice_text (choice_told choice.0) };

    fn push_to(&self, line: &mut Line) {
        if self.0 == 255 {
            line.push_bytes(b" -1");
        } else {
            self.0.push_to(line);
        }
    }
}

// Fields, one behind the other.
fn push_fields<T: Field>(line: &mut Line, fields: &[T])
    requires { length line.old + 23 * length fields.now ≤ 512 }
    ensures text { line.new ≡ line.old ++ join_lists (map T.text fields.now) }
    ensures short { length line.new ≤ length line.old + 23 * length fields.now }
{
    for field in fields {
        field.push_to(line);
    }
}

// The front of a line: its word, and fields.
fn begin<T: Field>(word: &[u8], fields: &[T]) -> Line
    requires { length word.now + 23 * length fields.now ≤ 512 }
    ensures text { result ≡ word.now ++ join_lists (map T.text fields.now) }
    ensures short { length result ≤ length word.now + 23 * length fields.now }
{
    let mut line = Line::new();
    line.push_bytes(word);
    push_fields(&mut line, fields);
    line
}

// `inputs P`
pub fn inputs_line(inputs: usize) -> Line
    ensures { result ≡ inputs_line inputs }
{
    let mut line = begin(b"inputs", &[inputs]);
    line.push(b'\n');
    line
}

// `type N h o k`
pub fn type_line(number: usize, t: &ModuleType) -> Line
    ensures { result ≡ type_line number (type_of t.now) }
{
    let mut line = begin(b"type", &[number]);
    push_fields(&mut line, &[t.highest, t.output, t.labels]);
    line.push(b'\n');
    line
}

// `edge A B L`, or the line of a pass transistor where the edge's field stated its channel
pub fn edge_line(e: &Edge) -> Line
    ensures { result ≡ edge_line (edge_of e.now) }
{
    if e.is_stated() {
        return pass_line(*e);
    }
    let mut line = begin(b"edge", &[e.first(), e.second(), e.label()]);
    line.push(b'\n');
    line
}

// `pass A B n L` or `pass A B p L`
fn pass_line(e: Edge) -> Line
    ensures { result ≡ edge_line_by stated (edge_of e) }
{
    let mut line = begin(b"pass", &[e.first(), e.second()]);
    line.push_bytes(channel_text(e));
    e.label().push_to(&mut line);
    line.push(b'\n');
    line
}

// The letter of an edge's channel.
fn channel_text(e: Edge) -> &'static [u8]
    ensures text { result.now ≡ channel_text (channel_in e) }
    ensures short { length result.now ≡ 2 }
{
    if e.is_p() { b" p" } else { b" n" }
}

// `bridge N n A B` or `bridge N i A L`
pub fn bridge_line(b: &Bridge) -> Line
    ensures { result ≡ bridge_line (listed_told b.now) }
{
    let mut line = begin(b"bridge", &[b.list]);
    line.push_bytes(kind_text(b.kind));
    push_fields(&mut line, &[b.first, b.second]);
    line.push(b'\n');
    line
}

// The letter of a bridge's kind, as in the report: between two nodes, or at an input.
// The kind is the file's byte: `show_piece` takes every record, also one with a kind that no file gives.
fn kind_text(kind: u8) -> &'static [u8]
    ensures text { result.now ≡ kind_text kind }
    ensures short { length result.now ≡ 2 }
{
    if kind == 0 { b" n" } else { b" i" }
}

// `instance N T C R ..`, with so many references
pub fn instance_line(number: usize, instance: &Instance, count: usize) -> Line
    ensures { result ≡ instance_line number (instance_with count instance.now) }
{
    let mut line = begin(b"instance", &[number]);
    instance.type_number.push_to(&mut line);
    Choice(instance.choice).push_to(&mut line);
    push_fields(&mut line, used(&instance.references, count));
    line.push(b'\n');
    line
}

// `vector N V`
pub fn vector_line(number: usize, v: &Vector, inputs: usize) -> Line
    ensures { result ≡ vector_line number (vector_told inputs v.now) }
{
    let mut line = begin(b"vector", &[number]);
    line.push(b' ');
    for i in 0..inputs.min(64) {
        line.push(letter(*v, i));
    }
    line.push(b'\n');
    line
}

// The letter of one primary input.
fn letter(v: Vector, i: usize) -> u8
    requires { i < 64 }
    ensures { result ≡ value_letter (value_of (bit v.ones i) (bit v.zeros i)) }
{
    match ((v.ones >> i) % 2, (v.zeros >> i) % 2) {
        (1, _) => b'1',
        (_, 1) => b'0',
        _ => b'X',
    }
}
