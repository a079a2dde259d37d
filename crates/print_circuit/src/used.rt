// The places of an array that are used.
ghost use Rattle.std.specs.Prelude.{◌≡◌, ◌≤◌, length, take};

// The first places, as many as a count says, or all where it says more: a record may have any count.
pub fn used<T, const N: usize>(places: &[T; N], count: usize) -> &[T]
    ensures used { result.now ≡ take count places.now }
    ensures few { length result.now ≤ N }
{
    &places[..count.min(N)]
}
