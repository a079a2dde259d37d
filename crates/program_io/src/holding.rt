// What a program tells of its inputs, where it holds one after the other in one value: handed to standard output from the first line to the last. Nothing else is written there but headings.
ghost use Rattle.std.specs.Prelude.{ℕ, List, Option, ◌↔◌, ◌≡◌, ◌≤◌, length};
ghost use Rattle.print_lines.specs.declared.Piece.{Piece as PieceRecord};
ghost use Rattle.print_lines.specs.Handing.{TextHandsOn, TextHanded};
ghost use Rattle.program_io.specs.declared.output.Output.{Output as OutputRecord};
ghost use Rattle.program_io.specs.Inputs.{heading_room};
ghost use Rattle.program_io.specs.Telling.{PieceTold, text_told, FilePut, InputPut, AllPut};

use crate::handing::{Handed, hand_out, none_handed};
use crate::inputs::{head_input, input_count, read_input};
use crate::output::{OUT_ROOM, Printer};
use print_lines::Piece;
use std::io;
use std::io::Write;
use std::rt::{Env, Files};

// What is held of a file to tell it: a text of numbered lines, given piece by piece into a lent buffer.
pub trait Holding {
    // The lines that a file tells, by their numbers.
    ghost line: { List ℕ → ℕ → List ℕ };

    // How many they are.
    ghost total: { List ℕ → ℕ };

    // In the program's own words: a piece has the lines of a file behind so many.
    ghost hands_on: { List ℕ → ℕ → PieceRecord → List ℕ → Type 0 };

    // So many lines are all of a file's.
    ghost all_handed: { List ℕ → ℕ → Type 0 };

    // A writer that says its bytes holds what a file tells.
    ghost put: { List ℕ → OutputRecord → OutputRecord → Option (List ℕ) → Option (List ℕ) → Type 0 };

    // What is held is of this file.
    ghost is_of: { Self → List ℕ → Type 0 };

    // Holds a file in place of the one before.
    fn hold(&mut self, file: &[u8])
        ensures { is_of self.new file.now };

    // The piece that begins with line `from`.
    fn piece(&self, from: usize, out: &mut [u8]) -> Piece
        requires { (file : List ℕ) × is_of self.now file }
        ensures { (file : List ℕ) → is_of self.now file → PieceTold (line file) (total file) from out.old result out.new };

    // What the program's own words say of its lines.
    ghost hands_on_is: { (file : List ℕ) (lines : ℕ) (piece : PieceRecord) (out : List ℕ) → hands_on file lines piece out ↔ TextHandsOn (line file) lines piece out };

    ghost all_handed_is: { (file : List ℕ) (lines : ℕ) → all_handed file lines ↔ TextHanded (total file) lines };

    ghost put_is: { (file : List ℕ) (before after : OutputRecord) (old new : Option (List ℕ)) → put file before after old new ↔ FilePut (text_told line total) file before after old new };
}

// What one file tells, all of it, piece by piece.
pub fn tell_file_with<T: Holding, R: Eprint, W: Write>(
    printer: &mut Printer<R, W>,
    text: &mut T,
    out: &mut [u8],
    file: &[u8],
) -> Handed
    requires { 512 ≤ length out.old }
    ensures handed { T.all_handed file.now result.lines }
    ensures put { T.put file.now printer.old.output printer.new.output (W.contents printer.old.writer) (W.contents printer.new.writer) }
{
    text.hold(file);
    let mut handed = none_handed();
    let mut next: usize = 0;
    // no range: how many pieces there are depends on the room
    loop {
        let piece = text.piece(next, out);
        if piece.count == 0 {
            break;
        }
        handed = hand_out::<T, R, W>(printer, handed, file, piece, out);
        next = piece.next;
    }
    handed
}

// Reads an input and writes what it tells, under a heading where there are several; one that cannot be read has none.
fn tell_input<T: Holding, R: Env + Files + io::Input + Eprint, W: Write>(
    printer: &mut Printer<R, W>,
    text: &mut T,
    out: &mut [u8],
    number: usize,
    file: &mut [u8],
)
    requires { heading_room ≤ length out.old }
    ensures { InputPut T.put printer.old.output printer.new.output (W.contents printer.old.writer) (W.contents printer.new.writer) }
{
    if let Some(count) = read_input(printer.rt, number, file) {
        head_input(printer, out, number);
        tell_file_with(printer, text, out, &file[..count]);
    }
}

// All inputs, each once and in their order. Each is read into the lent buffer.
pub fn tell_inputs_with<T: Holding, R: Env + Files + io::Input + Eprint, W: Write>(
    printer: &mut Printer<R, W>,
    text: &mut T,
    file: &mut [u8],
)
    ensures { AllPut (InputPut T.put) printer.old.output printer.new.output (W.contents printer.old.writer) (W.contents printer.new.writer) }
{
    let mut out = [0u8; OUT_ROOM];
    for number in 1..=input_count(printer.rt) {
        tell_input(printer, text, &mut out, number, file);
    }
}
