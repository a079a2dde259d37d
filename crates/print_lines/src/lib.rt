// Text into a lent buffer: bytes and decimal numbers, each at a place, with the place behind it as the answer; a line that is made piece by piece;
// and a line into the buffer's front, any or a refusal's.
#![tactic(auto)]

pub mod line;

ghost use Rattle.std.specs.Prelude.{◌≡◌, [], ◌∷◌, ◌+◌, ◌<◌, ◌≤◌, length};
ghost use Rattle.print_lines.specs.Decimal.{length_in, decimal};
ghost use Rattle.print_lines.specs.Given.{LineGiven};
ghost use Rattle.print_lines.specs.Lines.{refusal_line};
ghost use Rattle.words.specs.Written.{written};

use crate::line::Line;

// A piece of a text of numbered lines: the line behind it, and how many bytes it has.
#[derive(Clone, Copy)]
pub struct Piece {
    pub next: usize,
    pub count: usize,
}

// One byte.
pub fn put_byte(out: &mut [u8], at: usize, b: u8) -> usize
    requires { at < length out.old }
    ensures { (result ≡ at + 1) × (out.new ≡ written out.old at (b ∷ [])) }
{
    out[at] = b;
    at + 1
}

// All of some bytes.
pub fn put_bytes(out: &mut [u8], at: usize, bytes: &[u8]) -> usize
    requires { at + length bytes.now ≤ length out.old }
    ensures { (result ≡ at + length bytes.now) × (out.new ≡ written out.old at bytes.now) }
{
    let end = at + bytes.len();
    out[at..end].copy_from_slice(bytes);
    end
}

// How many decimal digits a number has, 0 as many as 1.
fn digits(n: u64) -> usize
    ensures { result ≡ length_in 20 n }
{
    n.max(1).ilog10() as usize + 1
}

// A number in decimal. It has at most 20 digits. By hand, since of `write!` no contract says what was written where it answers Err.
pub fn put_number(out: &mut [u8], at: usize, n: u64) -> usize
    requires { at + 20 ≤ length out.old }
    ensures { (result ≡ at + length (decimal n)) × (out.new ≡ written out.old at (decimal n)) }
{
    let count = digits(n);
    let mut left = n;
    for i in (0..count).rev() {
        out[at + i] = b'0' + (left % 10) as u8;
        left /= 10;
    }
    at + count
}

// A line into the front of a buffer: how many bytes it has, or None with nothing written where there is no room.
pub fn give(line: &[u8], out: &mut [u8]) -> Option<usize>
    ensures { LineGiven line.now out.old result out.new }
{
    if out.len() < line.len() {
        return None;
    }
    Some(put_bytes(out, 0, line))
}

// A refusal's line: its number and place.
pub fn refusal_line(number: u32, place: usize, out: &mut [u8]) -> Option<usize>
    ensures { LineGiven (refusal_line number place) out.old result out.new }
{
    let mut line = Line::<64>::new();
    line.push_bytes(b"refused ");
    line.push_number(number as u64);
    line.push_bytes(b" at ");
    line.push_number(place as u64);
    line.push(b'\n');
    give(line.as_bytes(), out)
}
