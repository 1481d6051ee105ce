// Strings and characters: what a spelling stands for, quoted anew.
// Document 01, "Canonical form": `"` or `'` and `\` after a backslash, `\n` `\r` `\t`, other controls as `\u{..}`, all else direct.
ghost use Rattle.std.specs.Prelude.{◌≡◌, true, List, [], ◌∷◌, ◌++◌, ℕ, ◌+◌, ◌≤◌, ◌<◌, min, length, drop};
ghost use Rattle.paper.specs.Bytes.{byte, is_hex, all, length_in, encode};
ghost use Rattle.paper.specs.Values.{Piece, piece_onto, pieces_onto, piece_rule, piece_means, pieces_mean, letter_means, hex_value, spells_scalar};
ghost use Rattle.paper.specs.Canonical.{hex_letter, hex_onto, byte_onto, bytes_onto};
ghost use Rattle.quoting.specs.Page.{Puts};
ghost use Rattle.leaves.specs.Plain.{is_plain};

use crate::page::Page;
use leaves::escapes::hex_value;
use leaves::plain::{is_control, is_marked, plain_end};
use text::parts::starts_with;
use text::runs::{self, Hex};

// The hex digit of a number below sixteen.
fn hex_letter(n: u8) -> u8
    requires { n < 16 }
    ensures { result ≡ hex_letter n }
{
    if n < 10 { b'0' + n } else { b'a' + n - 10 }
}

// Puts a number in hex, in lower case without leading zeros.
fn put_hex(page: &mut Page, b: u8)
    ensures { Puts page.old (hex_onto b) page.new }
{
    if 16 <= b {
        page.put_byte(hex_letter(b / 16));
    }
    page.put_byte(hex_letter(b % 16));
}

// Puts a control as `\u{..}`.
fn put_control(page: &mut Page, b: u8)
    ensures { Puts page.old (λ next. byte "\\" ∷ byte "u" ∷ byte "{" ∷ hex_onto b (byte "}" ∷ next)) page.new }
{
    page.put(b"\\u{");
    put_hex(page, b);
    page.put_byte(b'}');
}

// Whether all these bytes stand for themselves between two of this quote, read and written.
pub fn are_plain(quote: u8, w: &[u8]) -> bool
    ensures { result ≡ all (is_plain quote) w.now }
{
    plain_end(w, 0, quote) == w.len()
}

// Puts a byte that stands between two of this quote.
pub fn put_escaped(page: &mut Page, quote: u8, b: u8)
    ensures { Puts page.old (byte_onto quote b) page.new }
{
    if is_marked(quote, b) {
        page.put_byte(b'\\');
        page.put_byte(b);
        return;
    }
    match b {
        b'\n' => page.put(b"\\n"),
        b'\r' => page.put(b"\\r"),
        b'\t' => page.put(b"\\t"),
        _ => {
            if is_control(b) {
                put_control(page, b);
            } else {
                page.put_byte(b);
            }
        }
    }
}

// Puts the bytes of a scalar value. The bytes of a surrogate are told too, which `char` has none of.
fn put_scalar(page: &mut Page, quote: u8, v: u32)
    ensures { v ≤ 0x10FFFF → Puts page.old (bytes_onto quote (encode v)) page.new }
{
    if v <= 0x7F {
        put_escaped(page, quote, v as u8);
    } else if v <= 0x7FF {
        put_escaped(page, quote, (0xC0 + v / 64) as u8);
        put_escaped(page, quote, (0x80 + v % 64) as u8);
    } else if v <= 0xFFFF {
        put_escaped(page, quote, (0xE0 + v / 64 / 64) as u8);
        put_escaped(page, quote, (0x80 + v / 64 % 64) as u8);
        put_escaped(page, quote, (0x80 + v % 64) as u8);
    } else if v <= 0x10FFFF {
        put_escaped(page, quote, (0xF0 + v / 64 / 64 / 64) as u8);
        put_escaped(page, quote, (0x80 + v / 64 / 64 % 64) as u8);
        put_escaped(page, quote, (0x80 + v / 64 % 64) as u8);
        put_escaped(page, quote, (0x80 + v % 64) as u8);
    }
}

// The byte that a backslash and this byte stand for.
fn letter(b: u8) -> u8
    ensures { result ≡ letter_means b }
{
    match b {
        b'n' => b'\n',
        b'r' => b'\r',
        b't' => b'\t',
        _ => b,
    }
}

// Where the hex digits that stand at `at` end, of which there are at most so many.
fn digits_end(w: &[u8], at: usize, most: usize) -> usize
    requires { (at ≤ length w.now) × (most ≤ 6) }
    ensures { result ≡ at + min most (length_in is_hex (drop at w.now)) }
{
    runs::end::<Hex>(w, at).min(at + most)
}

// Puts what the hex digits at `at` stand for, of which there are at most so many. Answers where they end.
fn put_spelt(page: &mut Page, quote: u8, w: &[u8], at: usize, most: usize) -> usize
    requires { (at ≤ length w.now) × (most ≤ 6) }
    ensures { (at ≤ result) × (result ≤ length w.now)
        × ((digits left : List ℕ) → drop at w.now ≡ digits ++ left → spells_scalar digits ≡ true
        → min most (length_in is_hex (digits ++ left)) ≡ length digits → (drop result w.now ≡ left)
        × Puts page.old (bytes_onto quote (encode (hex_value 0 digits))) page.new) }
{
    let end = digits_end(w, at, most);
    put_scalar(page, quote, hex_value(&w[at..end]));
    end
}

// Puts what one piece stands for, which begins at `at`. Answers where the next one does.
fn put_piece(page: &mut Page, quote: u8, w: &[u8], at: usize) -> usize
    requires { (at < length w.now) × (quote < byte "\\") }
    ensures { (at < result)
        × ((p : Piece) (left : List ℕ) → drop at w.now ≡ piece_onto p left → piece_rule quote p ≡ true
        → (drop result w.now ≡ left) × Puts page.old (bytes_onto quote (piece_means p)) page.new) }
{
    if w[at] != b'\\' {
        put_escaped(page, quote, w[at]);
        return at + 1;
    }
    if starts_with(w, at, b"\\u{") {
        return put_spelt(page, quote, w, at + 3, 6) + 1;
    }
    if starts_with(w, at, b"\\u") {
        return put_spelt(page, quote, w, at + 2, 4);
    }
    if w.len() - at < 2 {
        return at + 1;
    }
    put_escaped(page, quote, letter(w[at + 1]));
    at + 2
}

// Puts what a spelling between two of this quote stands for. Runs of plain bytes are copied, the rest goes piece by piece.
pub fn put_pieces(page: &mut Page, quote: u8, w: &[u8])
    requires { quote < byte "\\" }
    ensures { (ps : List Piece) → w.now ≡ pieces_onto ps [] → all (piece_rule quote) ps ≡ true
        → Puts page.old (bytes_onto quote (pieces_mean ps)) page.new }
{
    // How far a piece goes is known only when it is put, so the place is kept by hand.
    let mut i = 0;
    while i < w.len() {
        let stop = plain_end(w, i, quote);
        if i < stop {
            page.put(&w[i..stop]);
            i = stop;
        } else {
            i = put_piece(page, quote, w, i);
        }
    }
}
