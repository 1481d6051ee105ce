// Concepts and the elements of their bodies: the two call each other, as their readers do, and siblings go round in a loop.
// Document 01, "Canonical form": each Concept and its annotations at as many tabs as its depth; one empty line between sibling Concepts.
ghost use Rattle.std.specs.Prelude.{◌∷◌, ◌+◌, ◌≤◌};
ghost use Rattle.paper.specs.Found.{pick};
ghost use Rattle.paper.specs.Bytes.{lf};
ghost use Rattle.paper.specs.Limits.{concept_limit};
ghost use Rattle.paper.specs.Grammar.{tabs_onto, closing_onto};
ghost use Rattle.quoting.specs.Page.{Puts};
ghost use Rattle.printing.specs.Walking.{ConceptPut, BodyPut, SheetPut, Traits, Elements};

use crate::content::put_content;
use crate::laid::Laid;
use crate::markers::put_marker;
use crate::notes::put_notes;
use paper::forms::Body;
use paper::kinds::Kind;
use quoting::page::Page;
use text::nesting::Nesting;

// Puts the canonical form of the sheet that has just these entries, from the first byte on. Answers where it ends.
pub fn put_sheet(out: &mut [u8], s: &[u8], cells: &[u32]) -> usize
    ensures { SheetPut s.now cells.now out.old out.new result }
{
    let laid = Laid { s, cells };
    let mut page = Page::new(out);
    let root = put_notes(&mut page, laid, 0, 0);
    put_concept(&mut page, laid, root, 0, Nesting::new(Nesting::CONCEPTS));
    page.at
}

// Puts the Concept of entry n at this depth, with its line end. Answers which entry comes next.
#[cycle(put_body_put_concept)]
fn put_concept(page: &mut Page, laid: Laid, n: usize, depth: usize, nesting: Nesting) -> usize
    requires { depth + nesting.left ≤ concept_limit }
    ensures { ConceptPut laid.entry.s.now laid.entry.cells.now n depth nesting.left page.old
        result page.new }
{
    let Some(inside) = nesting.step() else {
        return n;
    };
    page.put_tabs(depth);
    let next = put_marker(page, laid, n, depth);
    let own = laid.at(n);
    if own.form == Body::Children.number() {
        let elements = count_elements(laid, n, next);
        let end = put_body(page, laid, next, elements, depth + 1, inside);
        put_closing(page, laid.name(own), depth);
        return end;
    }
    if own.form == Body::Content.number() {
        let end = put_content(page, laid, next, depth + 1);
        put_closing(page, laid.name(own), depth);
        return end;
    }
    next
}

// Puts so many elements of a body from entry n on: annotations with their Concepts at this depth, one empty line between them.
// Answers which entry comes next.
#[cycle(put_body_put_concept)]
fn put_body(
    page: &mut Page,
    laid: Laid,
    n: usize,
    elements: usize,
    depth: usize,
    nesting: Nesting,
) -> usize
    requires { depth + nesting.left ≤ concept_limit }
    ensures { BodyPut laid.entry.s.now laid.entry.cells.now n elements depth nesting.left page.old
        result page.new }
{
    // Annotations are counted with their Concept, so a turn takes several elements off.
    let mut next = n;
    let mut left = elements;
    let mut between = false;
    while 0 < left {
        put_between(page, between);
        let own = put_notes(page, laid, next, depth);
        let noted = own - next;
        if left <= noted {
            return own;
        }
        next = put_concept(page, laid, own, depth, nesting);
        left = left - noted - 1;
        between = true;
    }
    next
}

// Puts the empty line between two siblings.
fn put_between(page: &mut Page, between: bool)
    ensures { Puts page.old (λ next. pick between (lf ∷ next) next) page.new }
{
    if between {
        page.put_byte(b'\n');
    }
}

// Puts the closing marker of this name, with its line end.
fn put_closing(page: &mut Page, name: &[u8], depth: usize)
    ensures { Puts page.old (λ next. tabs_onto depth (closing_onto name.now (lf ∷ next))) page.new }
{
    page.put_tabs(depth);
    page.put(b"</");
    page.put(name);
    page.put(b">\n");
}

// How many annotations and Concepts the Concept of entry n holds, whose traits end before entry `next`: the others that it counts.
fn count_elements(laid: Laid, n: usize, next: usize) -> usize
    ensures { Elements laid.entry.cells.now n next result }
{
    let all = laid.at(n).count as usize;
    all.saturating_sub(count_traits(laid, n, next))
}

// How many of the entries from `from` on up to `to` are traits.
fn count_traits(laid: Laid, from: usize, to: usize) -> usize
    ensures { Traits laid.entry.cells.now from to result }
{
    (from..to).filter(|n| laid.is_of(*n, Kind::Trait)).count()
}
