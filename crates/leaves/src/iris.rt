// IRIs: a scheme, ":" and a body.
// Document 01, "The grammar", Values; 001 §14, with the ranges of RFC 3987's ucschar; document 02, One.
ghost use Rattle.std.specs.Prelude.{◌≡◌, ℕ, ◌≤◌, length};
ghost use Rattle.paper.specs.Values.{is_iri_scalar, is_iri_body, is_iri};
ghost use Rattle.leaves.specs.Kinds.{stands_ascii};

use text::runs::{Scheme, skip};
use text::utf8::{Cursor, Step};
use text::{classes, runs};

// Whether the word is an IRI.
pub fn is_iri(w: &[u8]) -> bool
    ensures { result ≡ is_iri w.now }
{
    let colon = runs::end::<Scheme>(w, 0);
    match &w[colon..] {
        [b':', body @ ..] => classes::is_letter(w[0]) && is_body(body),
        _ => false,
    }
}

// Whether every scalar value may stand in an IRI. A byte of ASCII is one by itself, and needs no step.
fn is_body(body: &[u8]) -> bool
    ensures { (fuel : ℕ) → length body.now ≤ fuel → result ≡ is_iri_body fuel body.now }
{
    let mut cursor = Cursor::new(0);
    loop {
        let at = skip(cursor.at, body.len(), |i| may_stand_ascii(body[i]));
        match Cursor::new(at).step(body) {
            Step::Scalar(v, next) if may_stand(v) => cursor = next,
            Step::End => return true,
            _ => return false,
        }
    }
}

// Whether the scalar value may stand in an IRI. The gaps up to U+D7FF are request One's list, in the order of numbers.
fn may_stand(v: u32) -> bool
    ensures { result ≡ is_iri_scalar v }
{
    match v {
        0..=0x7F => may_stand_ascii(v as u8),
        0xA1..=0x61B
        | 0x61D..=0x167F
        | 0x1681..=0x1FFF
        | 0x200B..=0x200D
        | 0x2010..=0x2027
        | 0x2030..=0x205E
        | 0x2060..=0x2065
        | 0x206A..=0x2FFF
        | 0x3001..=0xD7FF => true,
        0xF900..=0xFDCF | 0xFDF0..=0xFFEF | 0xE1000..=0xEFFFD => true,
        0x10000..=0xDFFFF => v % 0x10000 <= 0xFFFD,
        _ => false,
    }
}

// Whether the byte is of ASCII and may stand in an IRI. Small letters are asked for first, since most are.
fn may_stand_ascii(b: u8) -> bool
    ensures { result ≡ stands_ascii b }
{
    classes::is_lower(b)
        || matches!(b, b'!' | b'#'..=b';' | b'=' | b'?'..=b'[' | b']' | b'_' | b'~')
}
