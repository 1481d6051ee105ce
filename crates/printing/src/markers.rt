// Opening markers: up to two traits beside the name, three or more below it.
// Document 01, "Canonical form".
ghost use Rattle.std.specs.Prelude.{◌≡◌, not, ◌||◌, List, ◌∷◌, ℕ, ◌+◌, ◌≤◌, length, leb};
ghost use Rattle.paper.specs.Bytes.{lf};
ghost use Rattle.paper.specs.Values.{ends_in_slash};
ghost use Rattle.paper.specs.Tree.{Trait, Ending};
ghost use Rattle.paper.specs.Grammar.{ending_onto};
ghost use Rattle.paper.specs.Entries.{traits_size, trait_entries};
ghost use Rattle.entries.specs.Laid.{Stand};
ghost use Rattle.quoting.specs.Page.{Puts};
ghost use Rattle.printing.specs.Standing.{Ends, Past, Ahead};
ghost use Rattle.printing.specs.Marking.{is_self, lead_onto, break_onto};
ghost use Rattle.printing.specs.Wholes.{TraitPut, TraitsPut, MarkerPut};

use crate::items::put_value;
use crate::laid::Laid;
use paper::forms::Body;
use paper::kinds::Kind;
use quoting::page::Page;
use quoting::spans::part;
use text::nesting::Nesting;

// The first entry from n on that is no item.
fn past_items(laid: Laid, n: usize) -> usize
    ensures { Past laid.entry.cells.now n result }
{
    // A search over numbers without an end would be no plainer.
    let mut i = n;
    while laid.is_of(i, Kind::Item) {
        i += 1;
    }
    i
}

// Whether three traits or more stand from entry n on.
fn has_three(laid: Laid, n: usize) -> bool
    ensures { (parent at : ℕ) (ts : List Trait) → Stand laid.entry.cells.now n (trait_entries parent n at ts)
        → Ends laid.entry.cells.now (n + traits_size ts) → result ≡ not (leb (length ts) 2) }
{
    if !laid.is_of(n, Kind::Trait) {
        return false;
    }
    let second = past_items(laid, n + 1);
    if !laid.is_of(second, Kind::Trait) {
        return false;
    }
    let third = past_items(laid, second + 1);
    laid.is_of(third, Kind::Trait)
}

// Puts the trait of entry n: name, "=", value. Answers which entry comes next.
fn put_trait(page: &mut Page, laid: Laid, n: usize) -> usize
    ensures { Ahead laid.entry.cells.now n result
        × TraitPut laid.entry.s.now laid.entry.cells.now n page.old result page.new }
{
    let own = laid.at(n);
    page.put(part(laid.s, own.name_start as usize, own.start as usize));
    put_value(page, laid, n, Nesting::BRACKETS)
}

// Puts what stands before a trait: a line of its own, one tab deeper than the marker, or a space.
fn put_lead(page: &mut Page, below: bool, depth: usize)
    ensures { Puts page.old (lead_onto below depth) page.new }
{
    if below {
        page.put(b"\n\t");
        page.put_tabs(depth);
    } else {
        page.put_byte(b' ');
    }
}

// The entry that comes behind traits, and whether the last value ends in "/".
#[derive(Clone, Copy)]
struct Traits {
    next: usize,
    slash: bool,
}

// Puts the traits from entry n on, below the name or beside it.
fn put_traits(page: &mut Page, laid: Laid, n: usize, below: bool, depth: usize) -> Traits
    ensures { (n ≤ result.next)
        × TraitsPut laid.entry.s.now laid.entry.cells.now n below depth page.old result.next
        result.slash page.new }
{
    let mut next = n;
    let mut slash = false;
    while laid.is_of(next, Kind::Trait) {
        slash = laid.spelling(laid.at(next)).ends_with(b"/");
        put_lead(page, below, depth);
        next = put_trait(page, laid, next);
    }
    Traits { next, slash }
}

// Puts what stands before the end of a marker: a line of its own, or a space where there is one.
fn put_break(page: &mut Page, below: bool, spaced: bool, depth: usize)
    ensures { Puts page.old (break_onto below spaced depth) page.new }
{
    if below {
        page.put_byte(b'\n');
        page.put_tabs(depth);
    } else if spaced {
        page.put_byte(b' ');
    }
}

// Puts the end of a marker, and the line end.
fn put_end(page: &mut Page, closed: bool)
    ensures { (e : Ending) → closed ≡ is_self e
        → Puts page.old (λ next. ending_onto e (lf ∷ next)) page.new }
{
    if closed {
        page.put(b"/>\n");
    } else {
        page.put(b">\n");
    }
}

// Puts the opening marker of entry n at this depth, and the line end. Answers which entry comes next.
pub fn put_marker(page: &mut Page, laid: Laid, n: usize, depth: usize) -> usize
    ensures { Ahead laid.entry.cells.now n result
        × MarkerPut laid.entry.s.now laid.entry.cells.now n depth page.old result page.new }
{
    if !laid.has(n) {
        return n;
    }
    let own = laid.at(n);
    page.put(part(laid.s, own.start as usize, own.name_end as usize));
    let below = has_three(laid, n + 1);
    let traits = put_traits(page, laid, n + 1, below, depth);
    let closed = own.form == Body::SelfClosed.number();
    put_break(page, below, closed || traits.slash, depth);
    put_end(page, closed);
    traits.next
}
