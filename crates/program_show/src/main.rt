// Looks into circuit files: for each, what was read, a line for each field, and then its refusal if it is refused (docs/SHOW.md).
#![tactic(auto)]

ghost use Rattle.std.specs.Prelude.{◌≡◌, IsSomeAnd};
ghost use Rattle.print_circuit.specs.Listing.{listing_of_file};
ghost use Rattle.print_circuit.specs.Told.{listing_told};
ghost use Rattle.program_show.specs.Handing.{listing_line, listing_length, ListingHandsOn, ListingHanded, ListingPut, InputsListed};

use circuit::Reading;
use circuit::limits::MOST_BYTES;
use print_circuit::show_piece;
use print_lines::Piece;
use program_io::holding::{Holding, tell_inputs_with};
use program_io::output::Printer;
use read_file::read::read_stages;
use std::io::Write;
use std::rt::{Env, Files};

// One byte more than the limit is enough to know that a file is too long.
const MOST_READ: usize = MOST_BYTES + 1;

// What was read of a file, none before the first.
#[derive(Drop)]
struct Listing {
    reading: Option<Reading>,
}

impl Holding for Listing {
    ghost line = { listing_line };

    ghost total = { listing_length };

    ghost hands_on = { ListingHandsOn };

    ghost all_handed = { ListingHanded };

    ghost put = { ListingPut };

    ghost is_of = { λ listing file. IsSomeAnd listing.reading (λ reading. listing_told reading ≡ listing_of_file file) };

    fn hold(&mut self, file: &[u8]) {
        self.reading = Some(read_stages(file, true));
    }

    fn piece(&self, from: usize, out: &mut [u8]) -> Piece {
        match &self.reading {
            Some(reading) => show_piece(reading, from, out),
            None => Piece {
                next: from,
                count: 0,
            },
        }
    }

    ghost hands_on_is = { λ file lines piece out. (λ told. told, λ told. told) };

    ghost all_handed_is = { λ file lines. (λ told. told, λ told. told) };

    ghost put_is = { λ file before after old new. (λ told. told, λ told. told) };
}

// Prints what each input tells.
fn show<R: Env + Files + Input + Eprint, W: Write>(printer: &mut Printer<R, W>, file: &mut [u8])
    ensures { InputsListed printer.old.output printer.new.output (W.contents printer.old.writer) (W.contents printer.new.writer) }
{
    tell_inputs_with(printer, &mut Listing { reading: None }, file);
}

fn main(rt: HostRuntime) {
    let mut file = [0u8; MOST_READ];
    show(&mut Printer::new(&rt, rt.stdout()), &mut file);
}
