// Boundaries: where a sheet of a roll begins, and where it ends.
// Document 01, "Rolls".
ghost use Rattle.std.specs.Prelude.{◌≡◌, true, false, ◌+◌, ◌≤◌, ◌<◌, length, drop};
ghost use Rattle.paper.specs.Roll.{is_boundary};
ghost use Rattle.rolls.specs.Boundaries.{Passes, LineTo, BoundaryFrom, SheetTo};

use text::classes::is_upper;
use text::runs::{skip, skip_blocks};

// Whether what stands at `at` would be a boundary at a line's start: "<" and an upper case letter.
fn is_boundary(roll: &[u8], at: usize) -> bool
    requires { at ≤ length roll.now }
    ensures { result ≡ is_boundary (drop at roll.now) }
{
    2 <= roll.len() - at && roll[at] == b'<' && is_upper(roll[at + 1])
}

// Where a line starts behind `at`, or the end of the roll: no sheet begins on the way. A CR ends no line of a roll.
fn next_line(roll: &[u8], at: usize) -> usize
    requires { at ≤ length roll.now }
    ensures { LineTo roll.now at result }
{
    let quiet = past_quiet(roll, at);
    let end = skip(quiet, roll.len(), |i| roll[i] != b'\n');
    (end + 1).min(roll.len())
}

// Past blocks of 48 bytes at `at` in which, and directly behind which, no sheet begins: none does without a "<" behind an LF. Both
// bytes are tested whatever the first one is, so that the compiler takes a block's bytes together.
fn past_quiet(roll: &[u8], at: usize) -> usize
    requires { at ≤ length roll.now }
    ensures { Passes false false roll.now at result }
{
    if at == roll.len() {
        return at;
    }
    skip_blocks::<48, _>(
        at,
        roll.len() - 1,
        |i| (roll[i] != b'\n') | (roll[i + 1] != b'<'),
    )
}

// The first boundary from `at` on, where a line starts, or the end of the roll.
pub fn next_boundary(roll: &[u8], at: usize) -> usize
    requires { at ≤ length roll.now }
    ensures { BoundaryFrom roll.now at result }
{
    let mut i = at;
    while i < roll.len() {
        if is_boundary(roll, i) {
            return i;
        }
        i = next_line(roll, i);
    }
    i
}

// Where the sheet ends whose boundary stands at `at`.
pub fn sheet_end(roll: &[u8], at: usize) -> usize
    requires { is_boundary (drop at roll.now) ≡ true }
    ensures { SheetTo roll.now at result }
{
    next_boundary(roll, next_line(roll, at))
}
