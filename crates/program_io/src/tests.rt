// Calls of what tells a file, and all inputs, by a text that is made of each.
ghost use Rattle.std.specs.Prelude.{[], ◌∷◌, ◌≡◌, get_or};

use crate::output::Printer;
use crate::telling::{Telling, tell_file, tell_inputs};
use print_lines::{Piece, put_bytes};
use std::env::Env;
use std::io::Write;
use std::test::Fail;
use std::{fs, str};

// One line: the first byte of a file, or a star where it has none.
#[derive(Drop)]
struct First {
    byte: u8,
}

impl Telling for First {
    ghost line = { λ file n. get_or file 0 42 ∷ 10 ∷ [] };

    ghost total = { λ file. 1 };

    ghost is_of = { λ text file. text.byte ≡ get_or file 0 42 };

    fn of(file: &[u8]) -> First {
        First {
            byte: *file.first().unwrap_or(&b'*'),
        }
    }

    fn piece(&self, from: usize, out: &mut [u8]) -> Piece {
        match from {
            0 if out.len() >= 2 => Piece {
                next: 1,
                count: put_bytes(out, 0, &[self.byte, b'\n']),
            },
            _ => Piece {
                next: from,
                count: 0,
            },
        }
    }
}

#[test]
fn tells_each_file(rt: HostRuntime) -> Result<(), Fail> {
    let mut printer = Printer::new(&rt, Vec::new(rt.alloc()));
    let mut out = [0u8; 512];
    for file in [b"abc".as_slice(), b"".as_slice(), b"b".as_slice()] {
        tell_file::<First, _, _>(&mut printer, &mut out, file);
    }
    let told = &printer.writer;
    assert_eq!(rt; told.as_slice(), b"a\n*\nb\n".as_slice());
    Ok(())
}

// The one argument of a test is its own name, and so the file of that name is its one input.
#[test]
fn tells_all_inputs(rt: HostRuntime) -> Result<(), Fail> {
    let mut name = [0u8; 64];
    let length = rt.arg(1, &mut name).ok().ok_or("a test has its name")?;
    let path = str::from_utf8(&name[..length])?;
    write!(fs::create(&rt, path)?, "abc")?;
    let mut printer = Printer::new(&rt, Vec::new(rt.alloc()));
    tell_inputs::<First, _, _>(&mut printer, &mut [0u8; 16]);
    fs::remove_file(&rt, path)?;
    let told = &printer.writer;
    assert_eq!(rt; told.as_slice(), b"a\n".as_slice());
    Ok(())
}
