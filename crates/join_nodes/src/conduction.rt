// What switches edges on: the planes of the labels, by gate.
ghost use Rattle.std.specs.Prelude.{◌≡◌, ◌*◌, ◌≤◌, length, replicate};
ghost use Rattle.switch.specs.Modules.{most_labels};
ghost use Rattle.join_nodes.specs.Model.{most_gates, WidePlanes};

use switch::MOST_LABELS;

// The planes of the gates, `W` words each, into a list of zeros: known-1 planes for the gates of n-channel edges, and known-0 planes, from gate 16 on, for those of p-channel edges.
pub fn gate_planes<const W: usize>(ones: &[u64], zeros: &[u64], planes: &mut [u64])
    requires width_bound { (W ≤ 4) × (length ones.now ≡ W * most_labels) × (length zeros.now ≡ W * most_labels) }
    requires planes_value { planes.old ≡ replicate (W * most_gates) 0 }
    ensures { WidePlanes ones.now zeros.now W planes.new }
{
    // Copied by `copy_from_slice`, they make a call of the library take 67,544 bytes of stack; 65,536 are promised.
    let p_channel = W * 16;
    for j in 0..W * MOST_LABELS {
        planes[j] = ones[j];
        planes[p_channel + j] = zeros[j];
    }
}
