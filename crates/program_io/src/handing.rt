// The lines of a text as they are handed to standard output. Nothing else is written there but headings.
ghost use Rattle.std.specs.Prelude.{◌≡◌, take};
ghost use Rattle.program_io.specs.Outputs.{TextPut};

use crate::holding::Holding;
use crate::output::Printer;
use print_lines::Piece;
use std::io::Write;

// How many lines were handed over. Only the functions here can make or advance the number.
#[derive(Clone, Copy)]
pub struct Handed {
    lines: usize,
}

// No line yet.
pub(crate) fn none_handed() -> Handed
    ensures { result.lines ≡ 0 }
{
    Handed { lines: 0 }
}

// Writes the lines behind those that were handed over before, which stand at the front of the buffer.
pub(crate) fn hand_out<T: Holding, R: Eprint, W: Write>(
    printer: &mut Printer<R, W>,
    handed: Handed,
    file: &[u8],
    piece: Piece,
    out: &[u8],
) -> Handed
    requires { T.hands_on file.now handed.lines piece out.now }
    ensures lines { result.lines ≡ piece.next }
    ensures put { TextPut printer.old.output printer.new.output (W.contents printer.old.writer) (W.contents printer.new.writer) (take piece.count out.now) }
{
    printer.write(&out[..piece.count]);
    Handed { lines: piece.next }
}
