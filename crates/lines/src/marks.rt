// The marks of a Concept: how its opening marker ends, and its closing marker.
// Document 01, "The grammar", Markers; refusals 7, 8 and 9.
ghost use Rattle.std.specs.Prelude.{◌≡◌, ◌≤◌, length, drop};
ghost use Rattle.paper.specs.Reading.{ending, closing};
ghost use Rattle.lines.specs.Parts.{reached, passed, part};
ghost use Rattle.lines.specs.Endings.{ended, ended_of};

use crate::part::{Whose, bytes_due, name_end};
use paper::{Refusal, Refused};
use text::parts::{same, starts_with};

// How a closing marker starts, before its Concept's name.
pub const CLOSING: [u8; 2] = *b"</";

// How a marker ends, and one that closes its Concept at once.
pub const END: [u8; 1] = *b">";

const CLOSED_END: [u8; 2] = *b"/>";

// Reads the closing marker that is due at `at`, of the Concept whose name stands from `from` to `to`.
pub fn read_closing(s: &[u8], at: usize, from: usize, to: usize) -> Result<usize, Refused>
    requires { (at ≤ length s.now) × (from ≤ to) × (to ≤ length s.now) }
    ensures { reached result ≡ passed s.now (closing (part s.now from to) (drop at s.now)) }
{
    let start = bytes_due(s, at, &CLOSING)?;
    let end = name_end(s, start, Whose::Closings)?;
    if !same(&s[from..to], &s[start..end]) {
        return Err(Refusal::ClosingName.at(start));
    }
    bytes_due(s, end, &END)
}

// How an opening marker ends, and the place behind it: a block opens, or the Concept is closed at once.
#[derive(Clone, Copy)]
pub enum Ending {
    Block(usize),
    Closed(usize),
}

// Reads the ending of an opening marker, due at `at`.
pub fn read_ending(s: &[u8], at: usize) -> Result<Ending, Refused>
    requires { at ≤ length s.now }
    ensures { ended result ≡ ended_of s.now (ending (drop at s.now)) }
{
    if starts_with(s, at, &END) {
        return Ok(Ending::Block(at + END.len()));
    }
    Ok(Ending::Closed(bytes_due(s, at, &CLOSED_END)?))
}
