// The inputs of a program, numbered from 1: the files that its arguments name, in their order, or standard input where there are none.
ghost use Rattle.std.specs.Prelude.{◌≤◌, length};
ghost use Rattle.program_io.specs.Inputs.{InputRead, heading_room, InputHeaded, HeadingPut};

use crate::input::{read_named, read_standard};
use crate::message::tell;
use crate::output::Printer;
use std::env::FillError;
use std::io;
use std::io::Write;
use std::rt::{Env, Files};

// Room for the longest name of a file.
const NAME_ROOM: usize = 4096;

// The system's number for a name that is too long.
const NAME_TOO_LONG: i32 = 36;

// Whether there is an argument of this number. With no room for its bytes it is too long, if it has any.
fn has_argument<R: Env>(rt: &R, number: usize) -> bool {
    !matches!(rt.arg(number, &mut []), Err(FillError::NotPresent))
}

// How many there are. Where no file is named, standard input is one.
pub fn input_count<R: Env>(rt: &R) -> usize
    ensures { 1 ≤ result }
{
    (2..usize::MAX)
        .find(|number| !has_argument(rt, *number))
        .map_or(usize::MAX, |number| number - 1)
}

// Reads an input, and says how many bytes it has. One that cannot be read is told of on standard error, by its name and the reason.
pub fn read_input<R: Env + Files + io::Input + Eprint>(
    rt: &R,
    number: usize,
    buf: &mut [u8],
) -> Option<usize>
    ensures { InputRead buf.old result buf.new }
{
    if !has_argument(rt, 1) {
        return read_standard(rt, buf);
    }
    let mut name = [0u8; NAME_ROOM];
    match rt.arg(number, &mut name) {
        Ok(n) => read_named(rt, &name[..n], buf),
        Err(_) => {
            // the buffer holds the start of a name that is too long for it
            tell(rt, &name, &io::Error::from_raw_os_error(NAME_TOO_LONG));
            None
        }
    }
}

// The heading of an input, where there are several, put into a buffer and written. The buffer has room for the longest name.
pub fn head_input<R: Env + Eprint, W: Write>(
    printer: &mut Printer<R, W>,
    out: &mut [u8],
    number: usize,
)
    requires { heading_room ≤ length out.old }
    ensures headed { InputHeaded printer.old.output out.old printer.new.output out.new }
    ensures put { HeadingPut printer.old.output printer.new.output (W.contents printer.old.writer) (W.contents printer.new.writer) }
{
    if !has_argument(printer.rt, 2) {
        return;
    }
    let mut name = [0u8; NAME_ROOM];
    let n = printer.rt.arg(number, &mut name).unwrap_or(0);
    printer.heading(out, &name[..n]);
}
