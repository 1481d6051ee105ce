// Numbers: the form of a word that is one.
// Document 01, "The grammar", Values, Numbers; 001 §12.
ghost use Rattle.std.specs.Prelude.{◌≡◌, ◌≤◌, length};
ghost use Rattle.paper.specs.Forms.{number_or_none};
ghost use Rattle.paper.specs.Values.{is_count, is_integer};
ghost use Rattle.leaves.specs.Kinds.{sign_length, count_length, integer_length, some_length, number_form, point_form};

use paper::forms::Form;
use text::runs::{self, Digit};

// The form of a number, none where the word is no number: an integer, and behind it perhaps a point, an exponent or a denominator.
pub fn number_form(w: &[u8]) -> Option<Form>
    ensures { number_or_none result ≡ number_form w.now }
{
    let size = integer_length(w)?;
    match &w[size..] {
        [] => Some(Form::Integer),
        [b'.', rest @ ..] => point_form(rest),
        [b'e' | b'E', rest @ ..] => is_integer(rest).then_some(Form::Scientific),
        [b'/', rest @ ..] => is_count(rest).then_some(Form::Fraction),
        _ => None,
    }
}

// The form of a number by what stands behind its point: digits, and perhaps an exponent.
fn point_form(w: &[u8]) -> Option<Form>
    ensures { number_or_none result ≡ point_form w.now }
{
    let size = runs::end::<Digit>(w, 0);
    if size == 0 {
        return None;
    }
    match &w[size..] {
        [] => Some(Form::Decimal),
        [b'e' | b'E', rest @ ..] => is_integer(rest).then_some(Form::Scientific),
        _ => None,
    }
}

// Whether the word is an integer.
fn is_integer(w: &[u8]) -> bool
    ensures { result ≡ is_integer w.now }
{
    integer_length(w) == Some(w.len())
}

// Whether the word is digits with no leading zero.
fn is_count(w: &[u8]) -> bool
    ensures { result ≡ is_count w.now }
{
    count_length(w) == Some(w.len())
}

// How many bytes the integer in front takes, if one stands there.
fn integer_length(w: &[u8]) -> Option<usize>
    ensures { (result ≡ some_length (integer_length w.now)) × (integer_length w.now ≤ length w.now) }
{
    let sign = sign_length(w);
    Some(sign + count_length(&w[sign..])?)
}

// How many bytes a sign in front takes.
fn sign_length(w: &[u8]) -> usize
    ensures { (result ≡ sign_length w.now) × (result ≤ length w.now) }
{
    match w {
        [b'+' | b'-', ..] => 1,
        _ => 0,
    }
}

// How many digits stand in front with no leading zero, if any do.
fn count_length(w: &[u8]) -> Option<usize>
    ensures { (result ≡ some_length (count_length w.now)) × (count_length w.now ≤ length w.now) }
{
    let size = runs::end::<Digit>(w, 0);
    if size == 0 {
        return None;
    }
    if 1 < size && w[0] == b'0' {
        return None;
    }
    Some(size)
}
