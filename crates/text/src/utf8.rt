// UTF-8, one scalar value at a time, and the check of a whole sheet's bytes.
// Document 01, "The grammar", Bytes, "Sizes" and refusal 3; RFC 3629 §4.
ghost use Rattle.std.specs.Prelude.{◌≡◌, true, ◌+◌, ◌≤◌, ◌<◌, ◌-◌, length, drop, ltb};
ghost use Rattle.paper.specs.Bytes.{follower, may_stand};
ghost use Rattle.paper.specs.Limits.{sheet_limit};
ghost use Rattle.text.specs.Steps.{bits_of, step_at, Awaits, checked, checked_at, Plain, Walks};

use crate::parts::starts_with;
use crate::runs::skip_by;
use paper::{Refusal, Refused};

// A place in a sheet.
#[derive(Clone, Copy)]
pub struct Cursor {
    pub at: usize,
}

// What stands at a cursor: a scalar value and the cursor behind it, bytes that begin no sequence, or nothing.
#[derive(Clone, Copy)]
pub enum Step {
    Scalar(u32, Cursor),
    Broken,
    End,
}

impl Cursor {
    // A sheet has at most so many bytes.
    pub const LIMIT: usize = 16384;

    // The cursor at a place.
    pub fn new(at: usize) -> Self
        ensures { result ≡ record { at = at } }
    {
        Cursor { at }
    }

    // Whether the sheet has more bytes than it may have.
    pub fn is_too_long(sheet: &[u8]) -> bool
        ensures { result ≡ ltb sheet_limit (length sheet.now) }
    {
        Self::LIMIT < sheet.len()
    }

    // One step of UTF-8, row by row as in the table: the first byte says how many follow, and where the second one lies.
    pub fn step(self, s: &[u8]) -> Step
        ensures { result ≡ step_at s.now self.at }
    {
        let at = self.at;
        if s.len() <= at {
            return Step::End;
        }
        let b = s[at];
        match b {
            0x00..=0x7F => Step::Scalar(b as u32, Cursor::new(at + 1)),
            0xC2..=0xDF => sequence::<2>(s, at, b - 0xC0, 0x80, 0xBF),
            0xE0 => sequence::<3>(s, at, b - 0xE0, 0xA0, 0xBF),
            0xE1..=0xEC => sequence::<3>(s, at, b - 0xE0, 0x80, 0xBF),
            0xED => sequence::<3>(s, at, b - 0xE0, 0x80, 0x9F),
            0xEE..=0xEF => sequence::<3>(s, at, b - 0xE0, 0x80, 0xBF),
            0xF0 => sequence::<4>(s, at, b - 0xF0, 0x90, 0xBF),
            0xF1..=0xF3 => sequence::<4>(s, at, b - 0xF0, 0x80, 0xBF),
            0xF4 => sequence::<4>(s, at, b - 0xF0, 0x80, 0x8F),
            _ => Step::Broken,
        }
    }
}

// The six bits of the byte at `at`, if it lies from `low` to `high`.
fn follower(s: &[u8], at: usize, low: u8, high: u8) -> Option<u32>
    requires { 0x80 ≤ low }
    ensures { result ≡ bits_of (follower low high (drop at s.now)) }
{
    let b = *s.get(at)?;
    if b < low || high < b {
        return None;
    }
    Some((b - 0x80) as u32)
}

// The step over a sequence of N bytes, whose first stands at `at` and has the bits `first` of the value; its row says that the second lies
// from `low` to `high`.
fn sequence<const N: usize>(s: &[u8], at: usize, first: u8, low: u8, high: u8) -> Step
    requires size { (2 ≤ N) × (N ≤ 4) }
    requires inside { at < length s.now }
    requires bits { first ≤ 0x1F }
    requires row { Awaits s.now at (at + 1) low high (N - 2) first }
    ensures { result ≡ step_at s.now at }
{
    let Some(c) = follower(s, at + 1, low, high) else {
        return Step::Broken;
    };
    let mut v = first as u32 * 64 + c;
    for i in 2..N {
        let Some(c) = follower(s, at + i, 0x80, 0xBF) else {
            return Step::Broken;
        };
        v = v * 64 + c;
    }
    Step::Scalar(v, Cursor::new(at + N))
}

// May the scalar value stand, where the bytes of s from after on stand behind it? Of the controls only tab, LF and CR LF may.
fn may_stand(v: u32, s: &[u8], after: usize) -> bool
    ensures { result ≡ may_stand v (drop after s.now) }
{
    match v {
        0x09 | 0x0A => true,
        0x0D => starts_with(s, after, b"\n"),
        0x00..=0x1F | 0x7F => false,
        _ => true,
    }
}

// Whether the byte is a scalar value and may stand whatever follows: printing ASCII, tab and LF.
fn is_plain(b: u8) -> bool
    ensures { result ≡ true → Plain b }
{
    matches!(b, b'\t' | b'\n' | b' '..=b'~')
}

// Past the plain bytes at `at`.
fn skip_plain(s: &[u8], at: usize) -> usize
    requires { at ≤ length s.now }
    ensures { (at ≤ result) × (result ≤ length s.now) × (checked_at s.now result ≡ checked_at s.now at) }
{
    skip_by::<32, _>(at, s.len(), |i| is_plain(s[i]))
}

// Walks over the one sequence that stands at `at`, and answers the place behind it; a sequence that may not stand is refused.
fn walk_one(s: &[u8], at: usize) -> Result<usize, Refused>
    requires { at < length s.now }
    ensures { Walks s.now at result }
{
    match Cursor::new(at).step(s) {
        Step::Scalar(v, next) if may_stand(v, s, next.at) => Ok(next.at),
        _ => Err(Refusal::Bytes.at(at)),
    }
}

// Are the bytes of s UTF-8, all of it allowed in a sheet, with no byte order mark in front? The first sequence that may not stand is refused.
pub fn check(s: &[u8]) -> Result<(), Refused>
    ensures { result ≡ checked s.now }
{
    if starts_with(s, 0, b"\xEF\xBB\xBF") {
        return Err(Refusal::Bytes.at(0));
    }
    let mut i = skip_plain(s, 0);
    while i < s.len() {
        i = skip_plain(s, walk_one(s, i)?);
    }
    Ok(())
}
