// Annotations, each on a line of its own at the depth of its Concept.
// Document 01, "Canonical form": space and tab runs become one space, ends trimmed.
ghost use Rattle.std.specs.Prelude.{[], ◌∷◌, ◌≤◌};
ghost use Rattle.paper.specs.Values.{collapse};
ghost use Rattle.paper.specs.Canonical.{print_notes};
ghost use Rattle.quoting.specs.Page.{Puts};
ghost use Rattle.printing.specs.Walking.{NotesPut};

use crate::laid::Laid;
use paper::kinds::Kind;
use quoting::page::Page;
use quoting::spaced::put_collapsed;

// Puts the annotations from entry n on. Answers which entry comes next.
pub fn put_notes(page: &mut Page, laid: Laid, n: usize, depth: usize) -> usize
    ensures { (n ≤ result)
        × NotesPut laid.entry.s.now laid.entry.cells.now n depth page.old result page.new }
{
    let mut next = n;
    while laid.is_of(next, Kind::Annotation) {
        put_note(page, laid.spelling(laid.at(next)), depth);
        next += 1;
    }
    next
}

// Puts an annotation of this text.
fn put_note(page: &mut Page, text: &[u8], depth: usize)
    ensures { Puts page.old (print_notes depth (collapse text.now ∷ [])) page.new }
{
    page.put_tabs(depth);
    page.put_byte(b'[');
    put_collapsed(page, text);
    page.put(b"]\n");
}
