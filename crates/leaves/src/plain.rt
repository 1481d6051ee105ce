// Bytes that stand for themselves between two quotes, read and written: which they are, and where a run of them ends.
// Document 01, "The grammar", Values, and "Canonical form": all is direct but the quote, the backslash and controls.
ghost use Rattle.std.specs.Prelude.{◌≡◌, ◌||◌, ◌+◌, ◌≤◌, length, drop, eqb, ltb};
ghost use Rattle.paper.specs.Bytes.{byte, length_in};
ghost use Rattle.leaves.specs.Plain.{is_plain};

use text::runs::{skip, skip_blocks};

// Whether a byte takes a backslash before it, between two of this quote.
pub fn is_marked(quote: u8, b: u8) -> bool
    ensures { result ≡ (eqb b quote || eqb b (byte "\\")) }
{
    (b == quote) | (b == b'\\')
}

pub fn is_control(b: u8) -> bool
    ensures { result ≡ (ltb b 32 || eqb b 127) }
{
    (b < 32) | (b == 127)
}

// Whether a byte between two of this quote stands for itself: it is no control, no backslash and not the quote. No part of the test is
// left out, and it asks for the ranges that stand: so the compiler takes many bytes together, and has little to make ready for it.
fn is_plain(quote: u8, b: u8) -> bool
    ensures { result ≡ is_plain quote b }
{
    let below = (b' ' <= b) & (b <= b'[');
    let between = (b']' <= b) & (b <= b'~');
    (below | between | (0x80 <= b)) & (b != quote)
}

// Where the run of such bytes that stands at `at` ends. One by one the first fault of a byte decides, as most runs are short.
pub fn plain_end(s: &[u8], at: usize, quote: u8) -> usize
    requires { at ≤ length s.now }
    ensures { (result ≡ at + length_in (is_plain quote) (drop at s.now)) × (at ≤ result) × (result ≤ length s.now) }
{
    let many = skip_blocks::<16, _>(at, s.len(), |i| is_plain(quote, s[i]));
    skip(
        many,
        s.len(),
        |i| !is_marked(quote, s[i]) && !is_control(s[i]),
    )
}
