// Bridges: the fields with tag 4, kept in file order; and the user lists in sum.
#![tactic(auto)]

pub mod lists;

ghost use Rattle.std.specs.Prelude.{◌≡◌, ◌≤◌, length};
ghost use Rattle.circuit.specs.Known.{listed_in};
ghost use Rattle.circuit.specs.Table.{first_of, bridge_in_range, bridge_tests};
ghost use Rattle.circuit.specs.Records.{bridge_record};
ghost use Rattle.read_fields.specs.Gathers.{JudgedAs};
ghost use Rattle.read_bridges.specs.ReadBridges.{BridgesRead};

use circuit::Bridge;
use circuit::limits::MOST_BRIDGES;
use circuit::order::Kind;
use circuit::refusal::Refusal;
use read_fields::Field;
use read_fields::gather::gather;

// The bridges that were read, and where the stage ended, with the refusal if it ended at a bridge that is refused.
// No Result, since what was read before a refusal is told too; and no struct that all stages share, since a generic one may hold no array of a type parameter.
#[derive(Clone, Copy)]
pub struct Bridges {
    pub refusal: Option<Refusal>,
    pub at: usize,
    pub count: usize,
    pub all: [Bridge; MOST_BRIDGES],
}

#[tactic(auto, unfolding(circuit::specs::Table::bridge_in_range, circuit::specs::Table::listed_good, circuit::specs::Table::bridge_good, circuit::specs::Known::bridge_of, switch::specs::Conduction::between))]
fn in_range(b: Bridge) -> bool
    ensures { result ≡ bridge_in_range b.list b.kind b.first b.second }
{
    if !(1..=127).contains(&b.list) || 31 < b.first {
        return false;
    }
    match b.kind {
        0 => b.second <= 31 && b.first != b.second,
        1 => b.second <= 11,
        _ => false,
    }
}

// The bridge of a field after `count` bridges, or the first test that refuses it.
#[tactic(auto, unfolding(circuit::specs::Table::bridge_tests, circuit::specs::Table::first_of, circuit::specs::Table::bridge_in_range, circuit::specs::Records::bridge_record, circuit::specs::Records::bridge_record_in, circuit::specs::Known::listed_in, circuit::specs::Known::bridge_of))]
fn bridge_in(f: Field, count: usize) -> Result<Bridge, Refusal>
    ensures { JudgedAs (first_of (bridge_tests count f.entry.at f.entry.body.now)) (bridge_record (listed_in f.entry.body.now)) result }
{
    let [list, kind, first, second] = f.body else {
        return Err(Refusal::WrongLength(f.at));
    };
    if MOST_BRIDGES <= count {
        return Err(Refusal::TooMany(f.at));
    }
    let bridge = Bridge {
        list: *list,
        kind: *kind,
        first: *first,
        second: *second,
    };
    if !in_range(bridge) {
        return Err(Refusal::OutOfRange(f.at));
    }
    Ok(bridge)
}

// The bridges from an offset on.
pub fn read_bridges(file: &[u8], from: usize) -> Bridges
    requires { from ≤ length file.now }
    ensures { BridgesRead file.now from result }
{
    let mut all = [Bridge::default(); MOST_BRIDGES];
    let read = gather(file, from, Kind::Bridge, &mut all, bridge_in);
    Bridges {
        refusal: read.refusal,
        at: read.at,
        count: read.count,
        all,
    }
}
