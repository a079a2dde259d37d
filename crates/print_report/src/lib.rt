// The lines of a report, each into the front of a lent buffer: how many bytes it has, or None with nothing written where there is no room.
// And the whole report, piece by piece.
#![tactic(auto)]

ghost use Rattle.std.specs.Prelude.{◌≡◌, [], ◌∷◌, ◌++◌, ◌+◌, ◌≤◌, ◌<◌, min, length, get_or};
ghost use Rattle.print_report.specs.Lines.{first_line, kind_letter, digits_of_marks, row_line, rounds_line};
ghost use Rattle.print_report.specs.Held.{head_of, head_line, words_at, held_line, held_count, RowsHeld};
ghost use Rattle.print_report.specs.Promise.{ReportPiece};
ghost use Rattle.grading.specs.Promise.{counts_of};
ghost use Rattle.print_lines.specs.Decimal.{decimal};
ghost use Rattle.print_lines.specs.Lines.{space};
ghost use Rattle.print_lines.specs.Given.{LineGiven};

use grading::codes::{first_in, instance_in, kind_in, second_in};
use grading::{Answer, Counts};
use print_lines::line::Line;
use print_lines::{Piece, give, refusal_line};
use std::array;
use words::{first_mark, marks};

// A row of the report but for its marks. Its kind is a number, since `row_line` promises a letter for each, not for the paper's two alone.
#[derive(Clone, Copy)]
pub struct RowHead {
    pub instance: u8,
    pub kind: u8,
    pub first: u8,
    pub second: u8,
    pub class: u16,
}

// The counts, but for the rounds.
pub fn first_line(counts: Counts, out: &mut [u8]) -> Option<usize>
    ensures { LineGiven (first_line counts.vectors counts.faults counts.classes counts.found) out.old result out.new }
{
    let mut line = Line::<128>::new();
    line.push_bytes(b"vectors ");
    line.push_number(counts.vectors as u64);
    line.push_bytes(b" faults ");
    line.push_number(counts.faults as u64);
    line.push_bytes(b" classes ");
    line.push_number(counts.classes as u64);
    line.push_bytes(b" found ");
    line.push_number(counts.found as u64);
    line.push(b'\n');
    give(line.as_bytes(), out)
}

// The last line.
pub fn rounds_line(rounds: usize, out: &mut [u8]) -> Option<usize>
    ensures { LineGiven (rounds_line rounds) out.old result out.new }
{
    let mut line = Line::<64>::new();
    line.push_bytes(b"rounds ");
    line.push_number(rounds as u64);
    line.push(b'\n');
    give(line.as_bytes(), out)
}

// One digit for each vector, 1 for a mark.
fn push_marks<const N: usize>(line: &mut Line<N>, row: [u64; 4], vectors: usize)
    requires vectors_bound { vectors ≤ 256 }
    requires room { length line.old + vectors ≤ N }
    ensures text { line.new ≡ line.old ++ digits_of_marks vectors row }
    ensures len { length line.new ≡ length line.old + vectors }
{
    for v in 0..vectors {
        let mark = (row[v / 64] >> (v % 64)) % 2;
        line.push(b'0' + mark as u8);
    }
}

// n for kind 0, i for kind 1.
fn kind_letter(kind: u8) -> u8
    ensures { result ≡ kind_letter kind }
{
    match kind {
        0 => b'n',
        _ => b'i',
    }
}

// What a row's line has before its marks.
fn push_head<const N: usize>(line: &mut Line<N>, head: RowHead)
    requires { length line.old + 86 ≤ N }
    ensures text { line.new ≡ line.old ++ decimal head.instance ++ space ++ (kind_letter head.kind ∷ []) ++ space ++ decimal head.first
        ++ space ++ decimal head.second ++ space ++ decimal head.class ++ space }
    ensures short { length line.new ≤ length line.old + 86 }
{
    line.push_number(u64::from(head.instance));
    line.push(b' ');
    line.push(kind_letter(head.kind));
    line.push(b' ');
    line.push_number(u64::from(head.first));
    line.push(b' ');
    line.push_number(u64::from(head.second));
    line.push(b' ');
    line.push_number(u64::from(head.class));
    line.push(b' ');
}

// A row's line. It has places for 256 vectors.
pub fn row_line(head: RowHead, vectors: usize, row: [u64; 4], out: &mut [u8]) -> Option<usize>
    ensures { LineGiven (row_line head.instance head.kind head.first head.second head.class (min vectors 256) row) out.old result out.new }
{
    let mut line = Line::<512>::new();
    push_head(&mut line, head);
    push_marks(&mut line, row, vectors.min(256));
    line.push(b' ');
    line.push_number(u64::from(marks(row)));
    line.push(b' ');
    line.push_number(u64::from(first_mark(row)));
    line.push(b'\n');
    give(line.as_bytes(), out)
}

// A row but for its marks, from the number that the row is kept as.
fn head_of(code: u32, class: u16) -> RowHead
    ensures { result ≡ head_of code class }
{
    RowHead {
        instance: instance_in(code) as u8,
        kind: kind_in(code) as u8,
        first: first_in(code) as u8,
        second: second_in(code) as u8,
        class,
    }
}

// What a grading leaves in memory: its answer, the rows as numbers, the matrix and the classes. The rows of the answer are there.
#[derive(Clone, Copy)]
pub struct Held<'a> {
    pub answer: Answer,
    pub codes: &'a [u32],
    pub matrix: &'a [u64],
    pub classes: &'a [u16],
    ghost rows_held: { RowsHeld answer codes.now matrix.now classes.now },
}

impl Held<'_> {
    // The line of the row at a place.
    fn row_line(&self, vectors: usize, r: usize, out: &mut [u8]) -> Option<usize>
        requires { r < (counts_of self.now.answer).faults }
        ensures { LineGiven (head_line (head_of (get_or self.now.codes.now r 0) (get_or self.now.classes.now r 0)) vectors (words_at self.now.matrix.now r)) out.old result out.new }
    {
        let head = head_of(self.codes[r], self.classes[r]);
        let row = array::from_fn(|w| self.matrix[4 * r + w]);
        row_line(head, vectors, row, out)
    }

    // How many lines the report has: a refusal is one; else one for the counts, one for each row and one for the rounds.
    fn line_count(&self) -> usize
        ensures { result ≡ held_count self.now.answer }
    {
        match self.answer {
            Ok(counts) => counts.faults + 2,
            Err(_) => 1,
        }
    }

    // The line at a number: the counts or the refusal, then the rows, then the rounds.
    fn line(&self, number: usize, out: &mut [u8]) -> Option<usize>
        requires { number < held_count self.now.answer }
        ensures { LineGiven (held_line self.now.answer self.now.codes.now self.now.matrix.now self.now.classes.now number) out.old result out.new }
    {
        let counts = match self.answer {
            Ok(counts) => counts,
            Err(why) => return refusal_line(why.number(), why.place(), out),
        };
        match number {
            0 => first_line(counts, out),
            row if row <= counts.faults => self.row_line(counts.vectors, row - 1, out),
            _ => rounds_line(counts.rounds, out),
        }
    }
}

// The lines from a number on, as many as have room, of the report of what a grading left.
pub fn report_piece(held: &Held<'_>, from: usize, out: &mut [u8]) -> Piece
    ensures { ReportPiece held.now.answer held.now.codes.now held.now.matrix.now held.now.classes.now from out.old result out.new }
{
    let lines = held.line_count();
    let mut count = 0;
    for next in from..lines {
        let Some(given) = held.line(next, &mut out[count..]) else {
            return Piece { next, count };
        };
        count += given;
    }
    Piece {
        next: from.max(lines),
        count,
    }
}
