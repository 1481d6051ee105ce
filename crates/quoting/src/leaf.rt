// Values that hold no items, and maps' keys: strings and characters quoted anew, UUIDs in lower case, other spellings as they stand.
// Document 01, "Canonical form"; document 02, Five: a map's key, colon and one space.
ghost use Rattle.std.specs.Prelude.{◌≡◌, true, List, [], ◌∷◌, ◌<◌};
ghost use Rattle.paper.specs.Bytes.{byte, all};
ghost use Rattle.paper.specs.Values.{Piece, pieces_onto, piece_rule, pieces_mean};
ghost use Rattle.paper.specs.Canonical.{bytes_onto};
ghost use Rattle.quoting.specs.Page.{Puts};
ghost use Rattle.quoting.specs.Leaves.{LeafPut, KeyPut, LabelPut};

use crate::backticks::put_backtick;
use crate::page::Page;
use crate::quoted::{are_plain, put_pieces};
use crate::spaced::put_lower;
use crate::spans::inner;
use paper::forms::Form;
use text::parts::starts_with;

// Puts a spelling that stands between two of this quote, quoted anew.
fn put_quoted(page: &mut Page, quote: u8, w: &[u8])
    requires { quote < byte "\\" }
    ensures { (ps : List Piece) → w.now ≡ quote ∷ pieces_onto ps (quote ∷ []) → all (piece_rule quote) ps ≡ true
        → Puts page.old (λ next. quote ∷ bytes_onto quote (pieces_mean ps) (quote ∷ next)) page.new }
{
    let spelling = inner(w);
    if are_plain(quote, spelling) {
        page.put(w);
    } else {
        page.put_byte(quote);
        put_pieces(page, quote, spelling);
        page.put_byte(quote);
    }
}

// Puts a string; its first byte says whether it stands between backticks.
fn put_string(page: &mut Page, w: &[u8])
    ensures { LeafPut 1 w.now page.old page.new }
{
    if starts_with(w, 0, b"`") {
        page.put_byte(b'"');
        put_backtick(page, inner(w));
        page.put_byte(b'"');
    } else {
        put_quoted(page, b'"', w);
    }
}

// Puts a value of the form with this number that holds no items.
pub fn put_leaf(page: &mut Page, form: u32, w: &[u8])
    ensures { LeafPut form w.now page.old page.new }
{
    if form == Form::String.number() {
        put_string(page, w);
    } else if form == Form::Character.number() {
        put_quoted(page, b'\'', w);
    } else if form == Form::Uuid.number() {
        put_lower(page, w);
    } else {
        page.put(w);
    }
}

// Puts a map's key by its first byte: a string or a character quoted anew, any other as it stands.
fn put_key(page: &mut Page, w: &[u8])
    ensures { KeyPut w.now page.old page.new }
{
    if starts_with(w, 0, b"\"") {
        put_quoted(page, b'"', w);
    } else if starts_with(w, 0, b"'") {
        put_quoted(page, b'\'', w);
    } else {
        page.put(w);
    }
}

// Puts what stands before a map's item: its key, a colon and one space.
pub fn put_label(page: &mut Page, w: &[u8])
    ensures { LabelPut w.now page.old page.new }
{
    put_key(page, w);
    page.put(b": ");
}
