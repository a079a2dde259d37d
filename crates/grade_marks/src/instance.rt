// One instance: from each label's planes and each node's words for each rail, four words each, its rows, and the planes of its output.
ghost use Rattle.std.specs.Prelude.{◌≡◌, ◌*◌, ◌<◌, ◌≤◌, length};
ghost use Rattle.words.specs.Written.{written};
ghost use Rattle.grading.specs.Codes.{CodesFit};
ghost use Rattle.grade_marks.specs.Model.{with_output, rows_words, InstanceGiven, InstanceMarked};

use crate::labels::{LabelPlanes, label_planes};
use crate::matrix::write_rows;
use circuit::Instance;
use grade_inputs::Signals;
use join_nodes::rails::{join_type, output_planes};
use switch::{ModuleType, Rails};

// Puts the planes of the output of the instance at a place, from its node's words for each rail.
fn put_output(rails: &Rails, node: usize, place: usize, signals: &mut Signals)
    requires { (node < 32) × (place < 128) }
    ensures { signals.new ≡ with_output signals.old place rails.now node }
{
    for w in 0..4 {
        let planes = output_planes(rails.supply[4 * node + w], rails.ground[4 * node + w]);
        signals.ones[4 * (64 + place) + w] = planes.ones;
        signals.zeros[4 * (64 + place) + w] = planes.zeros;
    }
}

// Marks an instance whose nodes are joined: its rows at the front of the matrix, and its output behind the signals. The answer is the rounds that joining them took.
fn mark_joined(
    rails: Rails,
    labels: &LabelPlanes,
    output: usize,
    place: usize,
    vectors: usize,
    rows: &[u32],
    signals: &mut Signals,
    matrix: &mut [u64],
) -> usize
    requires output_bound { (output < 32) × (place < 128) }
    requires matrix_len { 4 * length rows.now ≤ length matrix.old }
    requires codes_fit { CodesFit rows.now 0 (length rows.now) }
    ensures output_put { signals.new ≡ with_output signals.old place rails output }
    ensures rows_put { matrix.new ≡ written matrix.old 0 (rows_words rows.now rails labels.now vectors) }
    ensures rounds_are { result ≡ rails.rounds }
{
    put_output(&rails, output, place, signals);
    write_rows(rows, vectors, &rails, labels, matrix);
    rails.rounds
}

// Marks the instance at a place: its rows at the front of the matrix, and its output behind the signals. The answer is the rounds that joining its nodes took.
#[tactic(auto, using(switch::proofs::Ranges::given_type))]
pub fn mark_instance(
    t: ModuleType,
    one: Instance,
    place: usize,
    vectors: usize,
    rows: &[u32],
    signals: &mut Signals,
    matrix: &mut [u64],
) -> usize
    requires { InstanceGiven t one.references place rows.now matrix.old }
    ensures { InstanceMarked t one.references place vectors rows.now signals.old signals.new matrix.old matrix.new result }
{
    let labels = label_planes(&one.references[..t.labels as usize], signals);
    // joined nodes are handed over whole, so that the compiler keeps no second copy of them: as a local they take 768 bytes of stack more
    mark_joined(
        join_type(t, &labels.ones, &labels.zeros),
        &labels,
        t.output as usize,
        place,
        vectors,
        rows,
        signals,
        matrix,
    )
}
