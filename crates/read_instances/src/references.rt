// References: what each two bytes of an instance field say, and whether it is good.
ghost use Rattle.std.specs.Prelude.{◌≡◌, ◌≤◌, length};
ghost use Rattle.circuit.specs.Numbers.{signed, reference_of};
ghost use Rattle.circuit.specs.Known.{references_in};
ghost use Rattle.read_instances.specs.Turns.{good_record, good_records};

use circuit::Reference;
use read_fields::Field;
use switch::MOST_LABELS;

// The reference in two bytes, where it is good: a primary input, or below zero the output of an earlier instance, of which there are so many.
#[tactic(auto, unfolding(circuit::specs::Numbers::signed, circuit::specs::Numbers::reference_of, circuit::specs::Numbers::reference_good, circuit::specs::Records::reference_record, switch::specs::Conduction::between))]
fn reference_in(n: usize, inputs: usize, before: usize) -> Option<Reference>
    requires { (inputs ≤ 64) × (before ≤ 128) }
    ensures { result ≡ good_record inputs before (reference_of (signed 32768 n)) }
{
    if n < 32768 {
        if !(1..=inputs).contains(&n) {
            return None;
        }
        return Some(Reference::Input(n as u8));
    }
    let i = 65536usize.saturating_sub(n);
    if !(1..=before).contains(&i) {
        return None;
    }
    Some(Reference::Earlier(i as u8))
}

// The references of a field that has k of them, if all are good; the places behind them are unused.
pub fn references_in(
    f: Field,
    k: usize,
    inputs: usize,
    before: usize,
) -> Option<[Reference; MOST_LABELS]>
    requires many { (k ≡ length (references_in f.body.now)) × (k ≤ 12) }
    requires few { (inputs ≤ 64) × (before ≤ 128) }
    ensures { result ≡ good_records inputs before (references_in f.entry.body.now) }
{
    let mut references = [Reference::default(); MOST_LABELS];
    for i in 0..k {
        references[i] = reference_in(f.two_bytes(2 + 2 * i), inputs, before)?;
    }
    Some(references)
}
