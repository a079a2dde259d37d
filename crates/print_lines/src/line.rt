// A line that is made piece by piece, in room for so many bytes.
ghost use Rattle.std.specs.Prelude.{◌≡◌, List, ℕ, [], ◌∷◌, ◌++◌, ◌+◌, ◌<◌, ◌≤◌, length, take};
ghost use Rattle.print_lines.specs.Decimal.{decimal};

use crate::{put_byte, put_bytes, put_number};
use std::marker::Model;

// The bytes so far are the first, as many as are counted.
#[derive(Drop)]
pub struct Line<const N: usize> {
    bytes: [u8; N],
    count: usize,
}

impl<const N: usize> Model for Line<N> {
    ghost Value = { List ℕ };

    ghost view = { λ line. take line.count line.bytes };

    ghost invariant = { λ line. line.count ≤ N };
}

impl<const N: usize> Line<N> {
    // No bytes yet.
    pub fn new() -> Self
        ensures { result ≡ [] }
    {
        Line {
            bytes: [0; N],
            count: 0,
        }
    }

    pub fn push(&mut self, byte: u8)
        requires { length self.old < N }
        ensures { self.new ≡ self.old ++ byte ∷ [] }
    {
        self.count = put_byte(&mut self.bytes, self.count, byte);
    }

    pub fn push_bytes(&mut self, bytes: &[u8])
        requires { length self.old + length bytes.now ≤ N }
        ensures { self.new ≡ self.old ++ bytes.now }
    {
        self.count = put_bytes(&mut self.bytes, self.count, bytes);
    }

    // A number in decimal. It has at most 20 digits.
    pub fn push_number(&mut self, n: u64)
        requires { length self.old + 20 ≤ N }
        ensures text { self.new ≡ self.old ++ decimal n }
        ensures short { length self.new ≤ length self.old + 20 }
    {
        self.count = put_number(&mut self.bytes, self.count, n);
    }

    pub fn as_bytes(&self) -> &[u8]
        ensures all { result.now ≡ self.now }
        ensures few { length result.now ≤ N }
    {
        &self.bytes[..self.count]
    }
}
