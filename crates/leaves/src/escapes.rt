// Escapes in strings and characters: where one ends, or its refusal.
// Document 01, "The grammar", Values: strings and characters; an escape is refused at its backslash.
ghost use Rattle.std.specs.Prelude.{◌≡◌, true, ℕ, ◌+◌, ◌≤◌, ◌<◌, length, get_or};
ghost use Rattle.paper.specs.Bytes.{byte, is_hex, all};
ghost use Rattle.paper.specs.Values.{escaped, hex_value, spells_scalar, piece_rule};
ghost use Rattle.paper.specs.ReadingValues.{four_digits, braced_digits, escape};
ghost use Rattle.leaves.specs.Shown.{EscapeAt};

use paper::{Refusal, Refused};
use text::parts::starts_with;
use text::runs::Hex;
use text::{classes, runs};

// Hex digits that spell a scalar value are at most so many.
const DIGITS: usize = 6;

// Reads the escape whose backslash stands at `at`, between two of this quote.
pub fn escape_end(s: &[u8], at: usize, quote: u8) -> Result<usize, Refused>
    requires { (at < length s.now) × (get_or s.now at 0 ≡ byte "\\") }
    ensures { EscapeAt (escape quote) s.now at 1 result }
{
    if starts_with(s, at, b"\\u{") {
        return braced_end(s, at);
    }
    if starts_with(s, at, b"\\u") {
        return four_end(s, at);
    }
    let letter = at + 1;
    if s.len() <= letter {
        return Err(Refusal::Cut.at(s.len()));
    }
    is_escaped(s[letter], quote)
        .then_some(letter + 1)
        .ok_or(Refusal::Value.at(at))
}

// Whether a backslash and the byte are an escape between two of this quote.
fn is_escaped(b: u8, quote: u8) -> bool
    ensures { result ≡ piece_rule quote (escaped b) }
{
    b == quote || classes::is_one_of(b, b"\\nrt")
}

// Reads the escape whose `\u{` stands at `at`: one to six hex digits and "}".
fn braced_end(s: &[u8], at: usize) -> Result<usize, Refused>
    requires { at + 3 ≤ length s.now }
    ensures { (quote : ℕ) → EscapeAt (braced_digits quote) s.now at 3 result }
{
    let start = at + 3;
    let end = runs::end::<Hex>(s, start);
    if DIGITS < end - start {
        return Err(Refusal::Value.at(at));
    }
    if end == s.len() {
        return Err(Refusal::Cut.at(s.len()));
    }
    if s[end] != b'}' || end == start {
        return Err(Refusal::Value.at(at));
    }
    spells_scalar(&s[start..end])
        .then_some(end + 1)
        .ok_or(Refusal::Value.at(at))
}

// Reads the escape whose `\u` stands at `at`: four hex digits.
fn four_end(s: &[u8], at: usize) -> Result<usize, Refused>
    requires { at + 2 ≤ length s.now }
    ensures { (quote : ℕ) → EscapeAt (four_digits quote) s.now at 2 result }
{
    let start = at + 2;
    let end = start + 4;
    let stop = runs::end::<Hex>(s, start);
    if stop < end {
        if stop == s.len() {
            return Err(Refusal::Cut.at(s.len()));
        }
        return Err(Refusal::Value.at(at));
    }
    spells_scalar(&s[start..end])
        .then_some(end)
        .ok_or(Refusal::Value.at(at))
}

// Whether the hex digits spell a scalar value.
fn spells_scalar(digits: &[u8]) -> bool
    requires { (all is_hex digits.now ≡ true) × (length digits.now ≤ 6) }
    ensures { result ≡ spells_scalar digits.now }
{
    matches!(hex_value(digits), 0..=0xD7FF | 0xE000..=0x10FFFF)
}

// The number that hex digits spell. The bound on it needs the loop's own invariant, which a fold has no place for.
pub fn hex_value(digits: &[u8]) -> u32
    requires { (all is_hex digits.now ≡ true) × (length digits.now ≤ 6) }
    ensures { result ≡ hex_value 0 digits.now }
{
    let mut value = 0;
    for &digit in digits {
        value = value * 16 + classes::hex_digit(digit) as u32;
    }
    value
}
