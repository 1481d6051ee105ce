// Fields of digits: years, and the one rule of all fields of two digits.
// Document 02, Two: "One rule for two-digit fields serves all of them".
ghost use Rattle.std.specs.Prelude.{◌≡◌, ℕ, Bool, true, false, ◌&&◌, MatchOption};
ghost use Rattle.paper.specs.Bytes.{are_digits, all, starts_in};
ghost use Rattle.paper.specs.Times.{digits, number, two_digits, is_year, is_month, is_hour, is_sixtieth};
ghost use Rattle.times.specs.Parts.{JudgesByte};

use text::classes::{is_digit, is_within};

// Whether all bytes are digits, of which there is one at least.
pub fn are_digits(w: &[u8]) -> bool
    ensures { result ≡ are_digits w.now }
{
    are_some(w, is_digit)
}

// Whether all bytes are of the class, of which there is one at least. It is a loop, since the library's `all` takes more for each byte.
pub fn are_some<F: Fn(u8) -> bool>(w: &[u8], class: F) -> bool
    requires { F.IsAlwaysCallable class }
    ensures { (p : ℕ → Bool) → JudgesByte F.Fn class p → result ≡ (starts_in p w.now && all p w.now) }
{
    for b in w {
        if !class(*b) {
            return false;
        }
    }
    !w.is_empty()
}

// Whether the bytes are two digits whose number lies from `low` to `high`.
pub fn two_digits(w: &[u8], low: u8, high: u8) -> bool
    ensures { result ≡ two_digits low high w.now }
{
    pair(w).is_some_and(|n| is_within(low, high, n))
}

pub fn is_year(w: &[u8]) -> bool
    ensures { result ≡ is_year w.now }
{
    year(w).is_some()
}

pub fn is_month(w: &[u8]) -> bool
    ensures { result ≡ is_month w.now }
{
    two_digits(w, 1, 12)
}

pub fn is_hour(w: &[u8]) -> bool
    ensures { result ≡ is_hour w.now }
{
    two_digits(w, 0, 23)
}

// Whether the bytes are a minute or a second.
pub fn is_sixtieth(w: &[u8]) -> bool
    ensures { result ≡ is_sixtieth w.now }
{
    two_digits(w, 0, 59)
}

// The number of two digits; none where the bytes are not just two digits.
pub fn pair(w: &[u8]) -> Option<u8>
    ensures { MatchOption result (digits 2 w.now ≡ false) (λ n. (digits 2 w.now ≡ true) × (n ≡ number w.now)) }
{
    match w {
        [a @ b'0'..=b'9', b @ b'0'..=b'9'] => Some(10 * (a - b'0') + (b - b'0')),
        _ => None,
    }
}

// The number of a year's four digits; none where the bytes are not just four digits.
pub fn year(w: &[u8]) -> Option<u16>
    ensures { MatchOption result (is_year w.now ≡ false) (λ n. (is_year w.now ≡ true) × (n ≡ number w.now)) }
{
    let (first, last) = w.split_at_checked(2)?;
    Some(100 * u16::from(pair(first)?) + u16::from(pair(last)?))
}
