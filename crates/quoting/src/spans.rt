// The part of a sheet between two places.
// Document 01, "Entries": names and spans.
ghost use Rattle.std.specs.Prelude.{◌≡◌, ◌-◌, length, take, drop};

// The bytes from one place to another, as far as the sheet has them.
pub fn part(s: &[u8], from: usize, to: usize) -> &[u8]
    ensures { result.now ≡ take (to - from) (drop from s.now) }
{
    s.get(from..to.min(s.len())).unwrap_or(&[])
}

// What stands between the first byte and the last.
pub fn inner(w: &[u8]) -> &[u8]
    ensures { result.now ≡ take (length w.now - 2) (drop 1 w.now) }
{
    part(w, 1, w.len().saturating_sub(1))
}
