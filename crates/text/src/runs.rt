// Runs of bytes of one class: where such a run ends.
// Document 01, "The grammar", Names, Lines, Markers and Values.
ghost use Rattle.std.specs.Prelude.{◌≡◌, true, false, ℕ, Bool, ◌||◌, ◌+◌, ◌≤◌, ◌<◌, length, drop};
ghost use Rattle.paper.specs.Bytes.{bytes, elem, length_in, is_name_byte, is_blank, is_white, is_digit, is_hex};
ghost use Rattle.paper.specs.Reading.{is_tab};
ghost use Rattle.text.specs.Runs.{is_scheme_byte, is_text, AllFrom};

use crate::classes;

// A class of bytes that runs are made of.
pub trait Class {
    ghost takes: { ℕ → Bool };

    // Whether the byte is of the class.
    fn is_in(b: u8) -> bool
        ensures { result ≡ takes b };
}

// Letters and digits.
#[derive(Clone, Copy)]
pub struct Name;

impl Class for Name {
    ghost takes = { is_name_byte };

    fn is_in(b: u8) -> bool {
        classes::is_name_byte(b)
    }
}

// Spaces and tabs.
#[derive(Clone, Copy)]
pub struct Blank;

impl Class for Blank {
    ghost takes = { is_blank };

    fn is_in(b: u8) -> bool {
        classes::is_blank(b)
    }
}

// Spaces, tabs and line ends.
#[derive(Clone, Copy)]
pub struct White;

impl Class for White {
    ghost takes = { is_white };

    fn is_in(b: u8) -> bool {
        classes::is_white(b)
    }
}

#[derive(Clone, Copy)]
pub struct Digit;

impl Class for Digit {
    ghost takes = { is_digit };

    fn is_in(b: u8) -> bool {
        classes::is_digit(b)
    }
}

// Hex digits, in either case.
#[derive(Clone, Copy)]
pub struct Hex;

impl Class for Hex {
    ghost takes = { is_hex };

    fn is_in(b: u8) -> bool {
        classes::is_hex(b)
    }
}

// What the scheme of an IRI is made of.
#[derive(Clone, Copy)]
pub struct Scheme;

impl Class for Scheme {
    ghost takes = { is_scheme_byte };

    fn is_in(b: u8) -> bool {
        classes::is_scheme_byte(b)
    }
}

// Where the run of bytes of a class that stands at `at` ends.
pub fn end<C: Class>(s: &[u8], at: usize) -> usize
    requires { at ≤ length s.now }
    ensures { (result ≡ at + length_in C.takes (drop at s.now)) × (at ≤ result) × (result ≤ length s.now) }
{
    skip(at, s.len(), |i| C::is_in(s[i]))
}

// Where the tabs that stand at `at` end.
pub fn tab_end(s: &[u8], at: usize) -> usize
    requires { at ≤ length s.now }
    ensures { (result ≡ at + length_in is_tab (drop at s.now)) × (at ≤ result) × (result ≤ length s.now) }
{
    skip_by::<8, _>(at, s.len(), |i| s[i] == b'\t')
}

// Where the text that stands at `at` ends: at a line end, or with the input.
pub fn text_end(s: &[u8], at: usize) -> usize
    requires { at ≤ length s.now }
    ensures { (result ≡ at + length_in is_text (drop at s.now)) × (at ≤ result) × (result ≤ length s.now) }
{
    skip_by::<8, _>(at, s.len(), |i| !classes::is_line_end(s[i]))
}

// Past the places from `at` on that a test takes, by blocks of N and then one by one.
pub fn skip_by<const N: usize, F: Fn(usize) -> bool>(at: usize, end: usize, takes: F) -> usize
    requires block { 0 < N }
    requires ahead { at ≤ end }
    requires callable { (i : ℕ) → at ≤ i → i < end → F.pre takes i }
    ensures taken { AllFrom (λ i. F.post takes i true) at result }
    ensures inside { result ≤ end }
    ensures other { result < end → F.post takes result false }
{
    let i = skip_blocks::<N, &F>(at, end, &takes);
    skip(i, end, takes)
}

// Past the places from `at` on that a test takes, one by one.
pub fn skip<F: Fn(usize) -> bool>(at: usize, end: usize, takes: F) -> usize
    requires ahead { at ≤ end }
    requires callable { (i : ℕ) → at ≤ i → i < end → F.pre takes i }
    ensures taken { AllFrom (λ i. F.post takes i true) at result }
    ensures inside { result ≤ end }
    ensures other { result < end → F.post takes result false }
{
    for i in at..end {
        if !takes(i) {
            return i;
        }
    }
    end
}

// Past blocks of N places from `at` on, of which a test takes all.
pub fn skip_blocks<const N: usize, F: Fn(usize) -> bool>(at: usize, end: usize, takes: F) -> usize
    requires block { 0 < N }
    requires ahead { at ≤ end }
    requires callable { (i : ℕ) → at ≤ i → i < end → F.pre takes i }
    ensures taken { AllFrom (λ i. F.post takes i true) at result }
    ensures inside { result ≤ end }
{
    let mut i = at;
    while N <= end - i {
        if !takes_block::<N, F>(i, &takes) {
            return i;
        }
        i += N;
    }
    i
}

// Whether a test takes all the N places at `at`. With no way out of the loop the compiler looks at them all at once.
fn takes_block<const N: usize, F: Fn(usize) -> bool>(at: usize, takes: &F) -> bool
    requires fits { at + N < 18446744073709551616 }
    requires callable { (i : ℕ) → at ≤ i → i < at + N → F.pre takes.now i }
    ensures { result ≡ true → AllFrom (λ i. F.post takes.now i true) at (at + N) }
{
    let mut all = true;
    for i in 0..N {
        all &= takes(at + i);
    }
    all
}
