// What a program tells of its inputs, where it makes a text of each file. `holding` has the same for a program that holds one file after the other in one value, which takes less time and room where that value is large.
ghost use Rattle.std.specs.Prelude.{ℕ, List, ◌≤◌, length, IsSomeAnd};
ghost use Rattle.print_lines.specs.Handing.{TextHandsOn, TextHanded};
ghost use Rattle.program_io.specs.Telling.{PieceTold, text_told, FilePut, InputPut, AllPut};

use crate::holding::{Holding, tell_file_with, tell_inputs_with};
use crate::output::Printer;
use print_lines::Piece;
use std::io;
use std::io::Write;
use std::rt::{Env, Files};

// How many lines were handed over.
pub type Handed = crate::handing::Handed;

// What is held of a file to tell it: a text of numbered lines, given piece by piece into a lent buffer.
pub trait Telling {
    // The lines that a file tells, by their numbers.
    ghost line: { List ℕ → ℕ → List ℕ };

    // How many they are.
    ghost total: { List ℕ → ℕ };

    // What is held is of this file.
    ghost is_of: { Self → List ℕ → Type 0 };

    fn of(file: &[u8]) -> Self
        ensures { is_of result file.now };

    // The piece that begins with line `from`.
    fn piece(&self, from: usize, out: &mut [u8]) -> Piece
        requires { (file : List ℕ) × is_of self.now file }
        ensures { (file : List ℕ) → is_of self.now file → PieceTold (line file) (total file) from out.old result out.new };
}

// The text that was made last, none before the first file.
#[derive(Drop)]
struct Made<T> {
    text: Option<T>,
}

impl<T: Telling + Drop> Holding for Made<T> {
    ghost line = { T.line };

    ghost total = { T.total };

    ghost hands_on = { λ file. TextHandsOn (T.line file) };

    ghost all_handed = { λ file. TextHanded (T.total file) };

    ghost put = { FilePut (text_told T.line T.total) };

    ghost is_of = { λ made file. IsSomeAnd made.text (λ text. T.is_of text file) };

    fn hold(&mut self, file: &[u8]) {
        // the text before is dropped first, so that there is one at a time
        self.text = None;
        self.text = Some(T::of(file));
    }

    fn piece(&self, from: usize, out: &mut [u8]) -> Piece {
        match &self.text {
            Some(text) => text.piece(from, out),
            None => Piece {
                next: from,
                count: 0,
            },
        }
    }

    ghost hands_on_is = { λ file lines piece out. (λ told. told, λ told. told) };

    ghost all_handed_is = { λ file lines. (λ told. told, λ told. told) };

    ghost put_is = { λ file before after old new. (λ told. told, λ told. told) };
}

// What one file tells, all of it, piece by piece.
pub fn tell_file<T: Telling + Drop, R: Eprint, W: Write>(
    printer: &mut Printer<R, W>,
    out: &mut [u8],
    file: &[u8],
) -> Handed
    requires { 512 ≤ length out.old }
    ensures handed { TextHanded (T.total file.now) result.lines }
    ensures put { FilePut (text_told T.line T.total) file.now printer.old.output printer.new.output (W.contents printer.old.writer) (W.contents printer.new.writer) }
{
    tell_file_with(printer, &mut Made::<T> { text: None }, out, file)
}

// All inputs, each once and in their order. Each is read into the lent buffer.
pub fn tell_inputs<T: Telling + Drop, R: Env + Files + io::Input + Eprint, W: Write>(
    printer: &mut Printer<R, W>,
    file: &mut [u8],
)
    ensures { AllPut (InputPut (FilePut (text_told T.line T.total))) printer.old.output printer.new.output (W.contents printer.old.writer) (W.contents printer.new.writer) }
{
    tell_inputs_with(printer, &mut Made::<T> { text: None }, file);
}
