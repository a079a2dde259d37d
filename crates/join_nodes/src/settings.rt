// The planes of the settings of labels, 64 at a time.
ghost use Rattle.std.specs.Prelude.{◌≡◌};
ghost use Rattle.join_nodes.specs.Model.{setting_ones, setting_zeros};

use switch::MOST_LABELS;

// The known-1 planes of the settings 64 block to 64 block + 63.
pub fn setting_ones(block: usize) -> [u64; MOST_LABELS]
    ensures { result ≡ setting_ones block }
{
    let mut ones = [
        0xaaaa_aaaa_aaaa_aaaau64,
        0xcccc_cccc_cccc_cccc,
        0xf0f0_f0f0_f0f0_f0f0,
        0xff00_ff00_ff00_ff00,
        0xffff_0000_ffff_0000,
        0xffff_ffff_0000_0000,
        0,
        0,
        0,
        0,
        0,
        0,
    ];
    for l in 6..MOST_LABELS {
        if (block >> (l - 6)) % 2 == 1 {
            ones[l] = u64::MAX;
        }
    }
    ones
}

// The known-0 planes of the same settings: every label is known.
pub fn setting_zeros(block: usize) -> [u64; MOST_LABELS]
    ensures { result ≡ setting_zeros block }
{
    setting_ones(block).map(|ones| !ones)
}
