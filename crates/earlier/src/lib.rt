// The names of a marker's traits so far, by where they start in the sheet, and whether one of them stands again.
// Document 02, Six. An index has a cell for each; a search begins at the cell that a name's key gives, and goes on from there to a cell that is free.
#![tactic(auto)]

ghost use Rattle.std.specs.Prelude.{◌≡◌, true, ◌+◌, ◌<◌, length};
ghost use Rattle.paper.specs.Bytes.{same, all, is_name_byte};
ghost use Rattle.earlier.specs.Earlier.{name_at, Ready, Seeks};

use names::KEYS;
use text::classes::is_name_byte;
use text::parts::same;

// An index for any sheet has so many cells, one for a short sheet so many, and a sheet is short up to so many bytes. A marker has fewer traits
// than its sheet's index has cells, so that one is always free: a sheet has at most 1,024 entries, and a trait takes two bytes at least.
pub const CELLS: usize = 2048;

pub const SHORT_CELLS: usize = 128;

pub const SHORT: usize = 256;

// Seeks a name with this key among those of a marker's traits: none where a trait has it, and else the cell that a new name goes to. The
// marker begins before `first`, and all of its traits start behind: a cell that has a lower number is free, since it is zero, or has the
// start of an earlier marker's trait. So an index is zero once, for a whole sheet.
// What ends the loop is a free cell, and no count of cells, so that a `for` over them would have an end that is never come to.
pub fn seek(s: &[u8], first: usize, index: &[u16], key: usize, name: &[u8]) -> Option<usize>
    requires { Ready s.now first index.now key name.now }
    ensures { Seeks s.now first index.now name.now result }
{
    let size = index.len();
    let mut cell = key * size / KEYS;
    loop {
        let start = index[cell] as usize;
        if start < first {
            return Some(cell);
        }
        if is_named(s, start, name) {
            return None;
        }
        cell += 1;
        if cell == size {
            cell = 0;
        }
    }
}

// Whether the name that stands at `start` is this one. The first letter is compared before the rest.
fn is_named(s: &[u8], start: usize, name: &[u8]) -> bool
    requires { (start + length name.now < length s.now) × (0 < length name.now) × (all is_name_byte name.now ≡ true) }
    ensures { result ≡ same (name_at s.now start) name.now }
{
    let end = start + name.len();
    s[start] == name[0] && same(&s[start..end], name) && !is_name_byte(s[end])
}
