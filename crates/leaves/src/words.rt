// Words: where one ends, and its form.
// Document 01, "The grammar", Values: true and false, "$" and "~", UUIDs, numbers and IRIs.
ghost use Rattle.std.specs.Prelude.{◌≡◌, ◌+◌, ◌≤◌, ◌<◌, length, drop};
ghost use Rattle.paper.specs.Bytes.{elem};
ghost use Rattle.paper.specs.Forms.{number_or_none};
ghost use Rattle.paper.specs.Values.{is_uuid, word_form, ends_word};
ghost use Rattle.paper.specs.ReadingValues.{word_length};
ghost use Rattle.leaves.specs.Kinds.{enders_of, inside_of, is_named, lettered_form, numeral_form, is_group};

use crate::iris::is_iri;
use crate::numbers::number_form;
use paper::brackets::Bracket;
use paper::forms::Form;
use text::parts::{same, starts_with};
use text::runs::{Hex, Name};
use text::{classes, runs};

// What stands around a word directly, which decides where it ends: nothing; a bracket of whose items it is one, closed by "]" or by ")"; or
// a map, of whose keys it is one.
#[derive(Clone, Copy)]
pub enum Around {
    Nothing,
    Square,
    Round,
    Key,
}

impl Around {
    // What stands around an item of a bracket of this kind.
    pub fn inside(kind: Bracket) -> Around
        ensures { result ≡ inside_of kind }
    {
        match kind {
            Bracket::List | Bracket::Set | Bracket::Map => Around::Square,
            Bracket::Tuple => Around::Round,
        }
    }

    // Whether the byte ends such a word, beside those that end every word.
    fn ends(self, b: u8) -> bool
        ensures { result ≡ elem b (enders_of self) }
    {
        match self {
            Around::Nothing => false,
            Around::Square => matches!(b, b',' | b']'),
            Around::Round => matches!(b, b',' | b')'),
            Around::Key => matches!(b, b':' | b',' | b']'),
        }
    }
}

// Where the word that stands at `at` ends, by what stands around it. That is asked here once, and not again at each byte.
pub fn word_end(s: &[u8], at: usize, around: Around) -> usize
    requires { at ≤ length s.now }
    ensures { (result ≡ at + word_length (enders_of around) (drop at s.now)) × (at ≤ result) × (result ≤ length s.now) }
{
    match around {
        Around::Nothing => end_within(s, at, Around::Nothing),
        Around::Square => end_within(s, at, Around::Square),
        Around::Round => end_within(s, at, Around::Round),
        Around::Key => end_within(s, at, Around::Key),
    }
}

// The same, byte by byte, where the compiler knows what stands around.
#[inline(always)]
fn end_within(s: &[u8], at: usize, around: Around) -> usize
    requires { at ≤ length s.now }
    ensures { (result ≡ at + word_length (enders_of around) (drop at s.now)) × (at ≤ result) × (result ≤ length s.now) }
{
    for i in at..s.len() {
        if ends_word(s, i, around) {
            return i;
        }
    }
    s.len()
}

// Whether a word ends before the byte at `at`.
pub fn ends_word(s: &[u8], at: usize, around: Around) -> bool
    requires { at < length s.now }
    ensures { result ≡ ends_word (enders_of around) (drop at s.now) }
{
    match s[at] {
        b'>' => true,
        b'/' => starts_with(s, at, b"/>"),
        b => classes::is_white(b) || around.ends(b),
    }
}

// The form of a word, or none where no kind fits. Its first byte says which kinds can fit at all.
pub fn word_form(w: &[u8]) -> Option<Form>
    ensures { number_or_none result ≡ word_form w.now }
{
    match w {
        [b'$', name @ ..] => is_named(name, b'A', b'Z').then_some(Form::Pascal),
        [b'~', name @ ..] => is_named(name, b'a', b'z').then_some(Form::Camel),
        [b'A'..=b'Z' | b'a'..=b'z', ..] => lettered_form(w),
        [b'0'..=b'9' | b'+' | b'-', ..] => numeral_form(w),
        _ => None,
    }
}

// The form of a word that begins with a letter.
fn lettered_form(w: &[u8]) -> Option<Form>
    ensures { number_or_none result ≡ lettered_form w.now }
{
    if same(w, b"true") || same(w, b"false") {
        return Some(Form::Boolean);
    }
    if is_uuid(w) {
        return Some(Form::Uuid);
    }
    is_iri(w).then_some(Form::Iri)
}

// The form of a word that begins with a digit or a sign.
fn numeral_form(w: &[u8]) -> Option<Form>
    ensures { number_or_none result ≡ numeral_form w.now }
{
    if is_uuid(w) {
        return Some(Form::Uuid);
    }
    number_form(w)
}

// Whether these are letters and digits alone, the first one a letter from `low` to `high`.
fn is_named(w: &[u8], low: u8, high: u8) -> bool
    ensures { result ≡ is_named low high w.now }
{
    match w {
        [] => false,
        [first, ..] => classes::is_within(low, high, *first) && runs::end::<Name>(w, 0) == w.len(),
    }
}

// Whether the word is a UUID: hex digits in groups of 8, 4, 4, 4 and 12, with "-" between, which are 36 bytes.
fn is_uuid(w: &[u8]) -> bool
    ensures { result ≡ is_uuid w.now }
{
    w.len() == 36
        && is_group(w, 0, 8)
        && is_group(w, 9, 4)
        && is_group(w, 14, 4)
        && is_group(w, 19, 4)
        && runs::end::<Hex>(w, 24) == 36
}

// Whether so many hex digits stand at `at`, and "-" behind them.
fn is_group(w: &[u8], at: usize, size: usize) -> bool
    requires { at ≤ length w.now }
    ensures { result ≡ is_group size (drop at w.now) }
{
    let end = runs::end::<Hex>(w, at);
    end - at == size && starts_with(w, end, b"-")
}
