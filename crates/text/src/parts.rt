// Parts of a list of bytes: whether two are the same, whether fixed bytes stand at a place, and where one of some stands first.
// Document 01, "The grammar": fixed words, marker ends and the byte order mark; document 02, Two.
ghost use Rattle.std.specs.Prelude.{◌≡◌, not, ◌+◌, ◌≤◌, length, drop};
ghost use Rattle.paper.specs.Bytes.{elem, length_in, same, starts_with};

use crate::classes::is_one_of;
use crate::runs::skip;

// Are a and b the same bytes?
pub fn same(a: &[u8], b: &[u8]) -> bool
    ensures { result ≡ same a.now b.now }
{
    a.len() == b.len() && a.iter().rev().zip(b.iter().rev()).all(|(x, y)| x == y)
}

// Do the bytes of part stand in s from at on? Past the end only an empty part does.
pub fn starts_with(s: &[u8], at: usize, part: &[u8]) -> bool
    ensures { result ≡ starts_with part.now (drop at s.now) }
{
    s[at.min(s.len())..].starts_with(part)
}

// Where one of these bytes first stands from `at` on, or the end of s where none does.
pub fn find(s: &[u8], at: usize, these: &[u8]) -> usize
    requires { at ≤ length s.now }
    ensures { (result ≡ at + length_in (λ b. not (elem b these.now)) (drop at s.now))
        × (at ≤ result) × (result ≤ length s.now) }
{
    skip(at, s.len(), |i| !is_one_of(s[i], these))
}
