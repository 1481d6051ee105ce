// The value of a trait or of an item, with all that it holds.
// Document 01, "Canonical form"; document 02, Five: comma and one space between items, colon and one space behind a map's key.
ghost use Rattle.std.specs.Prelude.{◌∷◌, ◌++◌, ltb};
ghost use Rattle.paper.specs.Found.{pick};
ghost use Rattle.paper.specs.Bytes.{byte, space};
ghost use Rattle.paper.specs.Values.{opener};
ghost use Rattle.quoting.specs.Page.{Puts};
ghost use Rattle.printing.specs.Standing.{Holds, Ahead};
ghost use Rattle.printing.specs.Wholes.{ItemLabelPut, ValuePut};

use crate::laid::Laid;
use paper::brackets::Bracket;
use paper::forms::Form;
use quoting::leaf::{put_label, put_leaf};
use quoting::page::Page;

// The bracket of a value of the form with this number, if it holds items. Most hold none, which one comparison tells.
// A search in an array of the brackets would be no plainer.
fn bracket_of(form: u32) -> Option<Bracket>
    ensures { Holds form result }
{
    if form < Form::List.number() {
        None
    } else if form == Form::List.number() {
        Some(Bracket::List)
    } else if form == Form::Set.number() {
        Some(Bracket::Set)
    } else if form == Form::Map.number() {
        Some(Bracket::Map)
    } else if form == Form::Tuple.number() {
        Some(Bracket::Tuple)
    } else {
        None
    }
}

// Puts what opens a bracket of this kind.
fn put_opener(page: &mut Page, kind: Bracket)
    ensures { Puts page.old (λ next. opener kind ++ next) page.new }
{
    match kind {
        Bracket::List => page.put(b"["),
        Bracket::Set => page.put(b"set["),
        Bracket::Map => page.put(b"map["),
        Bracket::Tuple => page.put(b"("),
    }
}

// Puts the label of the item of entry n in a bracket of this kind: a map's key, colon and space, and nothing in any other.
fn put_item_label(page: &mut Page, laid: Laid, n: usize, kind: Bracket)
    ensures { ItemLabelPut laid.entry.s.now laid.entry.cells.now n kind page.old page.new }
{
    if kind.is_keyed() {
        put_label(page, laid.name(laid.at(n)));
    }
}

// Puts what stands between two items, before an item behind so many others.
fn put_comma(page: &mut Page, others: u32)
    ensures { Puts page.old (λ next. pick (ltb 0 others) (byte "," ∷ space ∷ next) next) page.new }
{
    if 0 < others {
        page.put(b", ");
    }
}

// Puts the value of entry n, in which at most so many brackets stand in one another. Answers which entry comes next.
pub fn put_value(page: &mut Page, laid: Laid, n: usize, brackets: usize) -> usize
    ensures { Ahead laid.entry.cells.now n result
        × ValuePut laid.entry.s.now laid.entry.cells.now n brackets page.old result page.new }
{
    if !laid.has(n) {
        return n;
    }
    let own = laid.at(n);
    let Some(kind) = bracket_of(own.form) else {
        put_leaf(page, own.form, laid.spelling(own));
        return n + 1;
    };
    if brackets == 0 {
        return n + 1;
    }
    put_opener(page, kind);
    let mut next = n + 1;
    for i in 0..own.count {
        put_comma(page, i);
        put_item_label(page, laid, next, kind);
        next = put_value(page, laid, next, brackets - 1);
    }
    page.put_byte(kind.closer());
    next
}
