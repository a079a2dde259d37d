// Words of 64 vectors: how many marks a row of four has, which vector marks first, and a word of ones for some vectors.
#![tactic(auto)]

ghost use Rattle.std.specs.Prelude.{◌≡◌};
ghost use Rattle.words.specs.Bits.{first_ones};
ghost use Rattle.words.specs.Rows.{marks_of, first_mark_of};

// The number of marks of a row.
pub fn marks(row: [u64; 4]) -> u32
    ensures { result ≡ marks_of row }
{
    row.iter().map(|w| w.count_ones()).sum()
}

// The first marking vector of a row, from 1, or 0 where no vector marks: a number in either case, since the report prints it.
pub fn first_mark(row: [u64; 4]) -> u32
    ensures { result ≡ first_mark_of row }
{
    match row.iter().position(|word| *word != 0) {
        Some(w) => 64 * w as u32 + row[w].trailing_zeros() + 1,
        None => 0,
    }
}

// Ones at the first n places of a word, at all where n is 64 or more.
pub fn first_ones(n: usize) -> u64
    ensures { result ≡ first_ones n }
{
    if 64 <= n {
        return !0u64;
    }
    (1u64 << n) - 1
}
