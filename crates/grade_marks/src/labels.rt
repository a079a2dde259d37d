// The planes of an instance's labels, taken from the signals that its references name.
ghost use Rattle.std.specs.Prelude.{◌≡◌, ◌≤◌, ◌<◌};
ghost use Rattle.circuit.specs.Records.{number_told};
ghost use Rattle.grade_marks.specs.Model.{signal_of, label_planes, ReferencesFit};

use circuit::Reference;
use grade_inputs::Signals;

// Four words for each label in either plane.
#[derive(Clone, Copy)]
pub struct LabelPlanes {
    pub ones: [u64; 48],
    pub zeros: [u64; 48],
}

// The place of a reference's signal.
#[tactic(auto, unfolding(crate::specs::Model::signal_of, crate::specs::Model::place_of_signal))]
fn signal_of(r: Reference) -> usize
    requires { (1 ≤ number_told r) × (number_told r ≤ 128) }
    ensures { (result ≡ signal_of r) × (result < 192) }
{
    match r {
        Reference::Input(n) => n as usize - 1,
        Reference::Earlier(i) => 63 + i as usize,
    }
}

// The planes of labels with these references.
pub fn label_planes(references: &[Reference], signals: &Signals) -> LabelPlanes
    requires { ReferencesFit references.now }
    ensures { result ≡ label_planes references.now signals.now }
{
    let mut labels = LabelPlanes {
        ones: [0u64; 48],
        zeros: [0u64; 48],
    };
    for (l, r) in references.iter().enumerate() {
        let at = 4 * signal_of(*r);
        labels.ones[4 * l..4 * l + 4].copy_from_slice(&signals.ones[at..at + 4]);
        labels.zeros[4 * l..4 * l + 4].copy_from_slice(&signals.zeros[at..at + 4]);
    }
    labels
}
