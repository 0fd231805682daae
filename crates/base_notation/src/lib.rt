// The notation that every crate's definitions share (specs/), its laws (proofs/), and bytes by their place.
#![tactic(auto)]

ghost use Rattle.std.specs.Prelude.{◌≡◌, ◌-◌, min};
ghost use Rattle.base_notation.specs.Text.{byte_at};

// The byte at a place, 0 past the end.
pub fn byte_at(t: &[u8], at: usize) -> u8
    ensures { result ≡ byte_at t.now at }
{
    t.get(at).copied().unwrap_or(0)
}

// How many of `count` bytes from a place on are within `size` bytes.
pub fn fitting(size: usize, at: usize, count: usize) -> usize
    ensures { result ≡ min count (size - at) }
{
    count.min(size.saturating_sub(at))
}
