// Messages on standard error: a line with what failed, a colon and the reason in the system's words.
use std::io::{Cursor, Write};
use std::{fmt, io, str};

// Room for each of the system's reasons, and the number that stands behind it.
const REASON_ROOM: usize = 128;

// Writes such a line. One that cannot be written is lost.
pub fn tell<R: Eprint>(rt: &R, what: &[u8], error: &io::Error) {
    let mut room = [0u8; REASON_ROOM];
    let words = reason(error, &mut room);
    let _ = rt.eprintln(format_args!("{}: {words}", Name(what)));
}

// The reason alone: behind the system's words an error is printed with its number.
fn reason<'a>(error: &io::Error, room: &'a mut [u8]) -> &'a str {
    let mut rest = Cursor::new(&mut *room);
    let _ = write!(rest, "{error}");
    let printed = usize::try_from(rest.position()).unwrap_or(0);
    let length = printed.min(room.len());
    let text = str::from_utf8(&room[..length]).unwrap_or("");
    match text.rsplit_once(" (os error ") {
        Some((words, _)) => words,
        None => text,
    }
}

// A name as it is printed: what is no text in it shows as U+FFFD.
#[derive(Drop)]
struct Name<'a>(&'a [u8]);

impl fmt::Display for Name<'_> {
    fn fmt<W: fmt::Write>(&self, f: &mut fmt::Formatter<W>) -> fmt::Result {
        for chunk in self.0.utf8_chunks() {
            f.write_str(chunk.valid())?;
            if !chunk.invalid().is_empty() {
                f.write_char(char::REPLACEMENT_CHARACTER)?;
            }
        }
        Ok(())
    }
}
