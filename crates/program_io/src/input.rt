// Input into a lent buffer. A contract names the bytes that a read puts there where the reader says them, which no file does.
ghost use Rattle.std.specs.Prelude.{◌≡◌, length, IfOk, IfSome};
ghost use Rattle.program_io.specs.Inputs.{InputRead, BytesRead};

use crate::message::tell;
use std::io::Read;
use std::rt::Files;
use std::{fs, io, str};

// Reads until the buffer is full or the input ends, and says how many bytes it read. A read that fails is no end of the input.
pub fn read_all<R: Read>(reader: &mut R, buf: &mut [u8]) -> io::Result<usize>
    ensures read { IfOk result (λ count. InputRead buf.old (Some count) buf.new) }
    ensures bytes { IfOk result (λ count. BytesRead (R.remaining reader.old) (R.remaining reader.new) count buf.new) }
    ensures long { length buf.new ≡ length buf.old }
{
    let mut count: usize = 0;
    // std's `read_to_end` and `read_exact` say little of what was read before an error
    while count < buf.len() {
        let more = reader.read(&mut buf[count..])?;
        if more == 0 {
            break;
        }
        count += more;
    }
    Ok(count)
}

// Reads an open input. Where that fails it says so on standard error, by the name and the reason.
fn read_as<R: Eprint, S: Read>(rt: &R, reader: &mut S, name: &[u8], buf: &mut [u8]) -> Option<usize>
    ensures read { InputRead buf.old result buf.new }
    ensures bytes { IfSome result (λ count. BytesRead (S.remaining reader.old) (S.remaining reader.new) count buf.new) }
{
    read_all(reader, buf)
        .inspect_err(|error| tell(rt, name, error))
        .ok()
}

// Reads standard input, with the same message.
pub fn read_standard<R: io::Input + Eprint>(rt: &R, buf: &mut [u8]) -> Option<usize>
    ensures { InputRead buf.old result buf.new }
{
    read_as(rt, &mut rt.reader(), b"standard input", buf)
}

// Opens a named file for reading. A name is text.
fn open_named<R: Files>(rt: &R, name: &[u8]) -> io::Result<R::File> {
    let path = str::from_utf8(name).map_err(|_| io::Error::new(
        io::ErrorKind::InvalidFilename,
        "its name is not UTF-8",
    ))?;
    fs::open(rt, path)
}

// Reads a named file, with the same message where it cannot be opened or read. A directory opens and fails at the read.
pub fn read_named<R: Files + Eprint>(rt: &R, name: &[u8], buf: &mut [u8]) -> Option<usize>
    ensures { InputRead buf.old result buf.new }
{
    match open_named(rt, name) {
        Ok(mut file) => read_as(rt, &mut file, name, buf),
        Err(error) => {
            tell(rt, name, &error);
            None
        }
    }
}
