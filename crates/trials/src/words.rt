// The words of a line, which single spaces split, and the numbers that they spell.
// Of the trials' own form; decimals are those that document 01 has in "Rolls".
ghost use Rattle.std.specs.Prelude.{◌≡◌, ◌+◌, ◌≤◌, length, drop};
ghost use Rattle.paper.specs.Bytes.{length_in};
ghost use Rattle.trials.specs.Words.{in_word, Held};

use text::classes;
use text::runs::skip;

// The largest number that every digit may follow: with it, it is still no more than a usize holds.
const TENTH: usize = 1844674407370955160;

// Where the word that stands at `at` ends: at its space, or at the end of the line.
pub fn end(line: &[u8], at: usize) -> usize
    requires { at ≤ length line.now }
    ensures { (result ≡ at + length_in in_word (drop at line.now)) × (at ≤ result) × (result ≤ length line.now) }
{
    skip(at, line.len(), |i| line[i] != b' ')
}

// Where the next word starts, after one that ends at `at`: past the space, or at the end of the line.
pub fn past(line: &[u8], at: usize) -> usize
    requires { at ≤ length line.now }
    ensures { (at ≤ result) × (result ≤ length line.now) }
{
    (at + 1).min(line.len())
}

// The number that the digits spell; none where they are none, or not digits alone, or too many.
pub fn number(digits: &[u8]) -> Option<usize> {
    if digits.is_empty() {
        return None;
    }
    let mut n = 0;
    for &digit in digits {
        if !classes::is_digit(digit) {
            return None;
        }
        if TENTH < n {
            return None;
        }
        n = n * 10 + (digit - b'0') as usize;
    }
    Some(n)
}

// Puts the numbers that the words of the line spell at the front of the cells, and answers how many they are; none where one of them is no
// number of a cell, or they are too many.
pub fn cells(line: &[u8], cells: &mut [u32]) -> Option<usize>
    ensures { Held result cells.new }
{
    let mut n = 0;
    let mut at = 0;
    while at < line.len() {
        let word = end(line, at);
        let value = number(&line[at..word])?;
        *cells.get_mut(n)? = u32::try_from(value).ok()?;
        n += 1;
        at = word + 1;
    }
    Some(n)
}
