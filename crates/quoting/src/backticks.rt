// Backtick strings: what a spelling stands for, with white space collapsed, for between two double quotes.
// Document 01, "Values", backtick, and "Canonical form": strings, backtick ones too, are written quoted.
ghost use Rattle.std.specs.Prelude.{◌≡◌, Bool, true, false, List, [], ◌≤◌, ◌<◌, length, drop};
ghost use Rattle.paper.specs.Bytes.{byte};
ghost use Rattle.paper.specs.Values.{Piece, pieces_onto, pieces_mean, backtick_rule, collapse};
ghost use Rattle.paper.specs.Canonical.{bytes_onto};
ghost use Rattle.quoting.specs.Page.{Puts};
ghost use Rattle.quoting.specs.Ticks.{First};

use crate::page::Page;
use crate::quoted::put_escaped;
use crate::spaced::Spacing;
use text::parts::starts_with;

// Where the byte is that the piece at `at` stands for: behind the backslash of an escaped backtick, else there.
fn meant_at(w: &[u8], at: usize) -> usize
    requires { at < length w.now }
    ensures { (at ≤ result) × (result < length w.now)
        × ((after : Bool) (ps : List Piece) → drop at w.now ≡ pieces_onto ps [] → backtick_rule after ps ≡ true
        → First w.now result ps) }
{
    // Most bytes are no backslash, and need no look at the next one.
    if w[at] == b'\\' && starts_with(w, at, b"\\`") {
        return at + 1;
    }
    at
}

// Puts what a spelling between backticks stands for, each run of white space as one space and none at the ends.
pub fn put_backtick(page: &mut Page, w: &[u8])
    ensures { (ps : List Piece) → w.now ≡ pieces_onto ps [] → backtick_rule false ps ≡ true
        → Puts page.old (bytes_onto (byte "\"") (collapse (pieces_mean ps))) page.new }
{
    // A page of its own, as `put_collapsed` has one. A piece is of one byte or of two, so the place is kept by hand.
    let mut apart = Page {
        out: &mut *page.out,
        at: page.at,
    };
    let mut spacing = Spacing::Start;
    let mut i = 0;
    while i < w.len() {
        let own = meant_at(w, i);
        if spacing.passes(&mut apart, w[own]) {
            put_escaped(&mut apart, b'"', w[own]);
        }
        i = own + 1;
    }
    page.at = apart.at;
}
