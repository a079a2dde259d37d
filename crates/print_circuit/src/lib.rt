// The listing that `show` prints of a file: the lines of what was read in file order, then that of a refusal, piece by piece into a lent buffer.
#![tactic(auto)]

mod lines;
mod parts;
mod used;

ghost use Rattle.print_circuit.specs.Listing.{circuit_lines};
ghost use Rattle.print_circuit.specs.Told.{circuit_told, listing_told};
ghost use Rattle.print_circuit.specs.Promise.{ListingPiece};
ghost use Rattle.print_circuit.specs.Sought.{FindsLine, LineAt, most_lines};

use crate::lines::Line;
use crate::parts::{bridge_part, inputs_part, instance_part, type_part, vector_part};
use crate::used::used;
use circuit::{Circuit, Reading};
use print_lines::{Piece, give, refusal_line};
use std::ops::ControlFlow;

// Line n of a circuit, or how far n is past the last.
fn circuit_line(c: &Circuit, n: usize) -> ControlFlow<Line, usize>
    ensures { FindsLine (circuit_lines (circuit_told c.now)) most_lines n result }
{
    let n = inputs_part(c.inputs, n)?;
    let types = used(&c.types, c.type_count);
    let n = type_part(types, n)?;
    let n = bridge_part(used(&c.bridges, c.bridge_count), n)?;
    let n = instance_part(used(&c.instances, c.instance_count), types, n)?;
    vector_part(used(&c.vectors, c.vector_count), c.inputs, n)
}

// Line n of a file's listing into the front of a buffer, if there is one and room for it. A refusal's line is the last.
fn one_line(reading: &Reading, n: usize, out: &mut [u8]) -> Option<usize>
    ensures { LineAt (listing_told reading.now) most_lines n out.old result out.new }
{
    match circuit_line(&reading.circuit, n) {
        ControlFlow::Break(line) => give(line.as_bytes(), out),
        ControlFlow::Continue(left) => {
            let refusal = reading.refusal.filter(|_| left == 0)?;
            refusal_line(refusal.number(), refusal.place(), out)
        }
    }
}

// The piece of a file's listing that begins with line `from`. The record is lent: handed over it would be copied for each piece, 17 KB.
pub fn show_piece(reading: &Reading, from: usize, out: &mut [u8]) -> Piece
    ensures { ListingPiece reading.now from out.old result out.new }
{
    // no range: how many lines there are is known only where one past the last is asked for
    let mut next = from;
    let mut count = 0;
    while let Some(given) = one_line(reading, next, &mut out[count..]) {
        next += 1;
        count += given;
    }
    Piece { next, count }
}
