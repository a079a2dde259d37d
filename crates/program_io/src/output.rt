// Text written to standard output, and the headings between reports.
ghost use Rattle.std.specs.Prelude.{◌≡◌, true, false, ◌+◌, ◌<◌, ◌≤◌, length};
ghost use Rattle.words.specs.Written.{written};
ghost use Rattle.program_io.specs.Outputs.{TextWritten, TextPut, blank_line, heading_text, Headed};

use crate::message::tell;
use print_lines::{put_byte, put_bytes};
use std::io::{ErrorKind, Write};

// Room for the text that is written at once.
pub const OUT_ROOM: usize = 65536;

// Whether a write has failed, and whether a report has begun: neither, where nothing was written yet.
#[derive(Clone, Copy, Default)]
pub struct Output {
    pub is_lost: bool,
    pub has_report: bool,
}

// Standard output, what is known of it, and the runtime that tells of a failure on standard error.
#[derive(Drop)]
pub struct Printer<'a, R, W> {
    pub rt: &'a R,
    pub writer: W,
    pub output: Output,
}

impl<'a, R: Eprint, W: Write> Printer<'a, R, W> {
    pub fn new(rt: &'a R, writer: W) -> Printer<'a, R, W>
        ensures { (result.writer ≡ writer) × (result.output.is_lost ≡ false) × (result.output.has_report ≡ false) }
    {
        Printer {
            rt,
            writer,
            output: Output::default(),
        }
    }

    // Writes a text, or says on standard error why it cannot. After a write that failed nothing is written any more, so that the failure is told once.
    pub fn write(&mut self, text: &[u8])
        ensures recorded { TextWritten self.old.output self.new.output }
        ensures put { TextPut self.old.output self.new.output (W.contents self.old.writer) (W.contents self.new.writer) text.now }
    {
        if self.output.is_lost {
            return;
        }
        if let Err(error) = self.writer.write_all(text) {
            self.output.is_lost = true;
            // where nobody reads a pipe any more, a program stops without a word
            if error.kind() != ErrorKind::BrokenPipe {
                tell(self.rt, b"standard output", &error);
            }
        }
    }

    // The heading of one report of several, and before it a blank line if a report stands above: put into the front of a buffer, and written.
    pub fn heading(&mut self, out: &mut [u8], name: &[u8])
        requires { length name.now + 10 ≤ length out.old }
        ensures headed { Headed name.now self.old.output out.old self.new.output out.new }
        ensures put { TextPut self.old.output self.new.output (W.contents self.old.writer) (W.contents self.new.writer) (heading_text self.old.output.has_report name.now) }
    {
        let at = put_blank(out, self.output.has_report);
        let at = put_bytes(out, at, b"==> ");
        let at = put_bytes(out, at, name);
        let at = put_bytes(out, at, b" <==\n");
        self.write(&out[..at]);
        self.output.has_report = true;
    }
}

// A blank line into the front of a buffer, where one is wanted.
fn put_blank(out: &mut [u8], is_wanted: bool) -> usize
    requires { 0 < length out.old }
    ensures { (result ≡ length (blank_line is_wanted)) × (out.new ≡ written out.old 0 (blank_line is_wanted)) }
{
    if is_wanted {
        return put_byte(out, 0, b'\n');
    }
    0
}
