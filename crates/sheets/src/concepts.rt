// Concepts and children: the Concept reader and the reader of a children body call each other, and siblings go round in a loop.
// Document 01, "The grammar", Lines, Markers and Content, and "Entries".
ghost use Rattle.std.specs.Prelude.{◌≡◌, ◌+◌, ◌≤◌, length};
ghost use Rattle.paper.specs.Forms.{number_of_body};
ghost use Rattle.entries.specs.Laid.{Fits};
ghost use Rattle.lines.specs.Parts.{seen, In, Tabbed, MakesNotes};
ghost use Rattle.sheets.specs.Traits.{NamesBefore, NamesOnward};
ghost use Rattle.sheets.specs.Concepts.{Ready, Ends, ended_by, cells_ended, line_ended};
ghost use Rattle.sheets.specs.Concepts.{ReadsConcept, ReadsInside, ReadsBlock, ReadsChildren, ReadsPiece, ReadsAnnotated};

use crate::opening::{Opened, read_opening};
use entries::{Entry, Slot, put};
use lines::annotations;
use lines::blank::{is_blank_line, tabs_only};
use lines::content::read_content;
use lines::marks::{CLOSING, read_closing};
use lines::part::{Part, entryless, line_rest};
use modes::Modes;
use paper::Refused;
use paper::forms::Body;
use paper::kinds::Kind;
use text::nesting::Nesting;
use text::parts::starts_with;
use text::runs;

// Reads the Concept whose "<" is due at `at`, on a line of so many tabs, and enters it with what it holds.
#[cycle(concept)]
fn read_concept(
    modes: &Modes,
    s: &[u8],
    at: usize,
    tabs: usize,
    nesting: Nesting,
    cells: &mut [u32],
    slot: Slot,
    names: &mut [u16],
) -> Result<Part, Refused>
    requires { Ready s.now at cells.old slot × NamesBefore s.now (at + 1) names.old }
    ensures { ReadsConcept modes.now.table.now s.now at tabs nesting.left cells.old slot result cells.new
        × NamesOnward s.now result names.new }
{
    let opened = read_opening(modes, s, at, nesting, cells, slot, names)?;
    let next = slot.under().after(opened.made);
    let body = read_inside(
        modes,
        s,
        opened.end,
        opened.form,
        tabs,
        at + 1,
        opened.to,
        opened.inside,
        cells,
        next,
        names,
    )?;
    Ok(end_concept(body, &opened, at, cells, slot))
}

// Enters a Concept that was opened so at a "<" that stands at `at`, and ends with its body.
fn end_concept(body: Part, opened: &Opened, at: usize, cells: &mut [u32], slot: Slot) -> Part
    requires { Ends cells.old slot body at opened.now.to opened.now.made opened.now.own }
    ensures { (result ≡ ended_by body opened.now.made)
        × (cells.new ≡ cells_ended cells.old slot body (number_of_body opened.now.form) at opened.now.to opened.now.own) }
{
    put(
        cells,
        slot.next,
        Entry {
            kind: Kind::Concept.number(),
            form: opened.form.number(),
            parent: slot.parent,
            count: (opened.own + body.own) as u32,
            name_start: (at + 1) as u32,
            name_end: opened.to as u32,
            start: at as u32,
            end: body.end as u32,
        },
    );
    Part {
        end: body.end,
        made: 1 + opened.made + body.made,
        own: 1,
    }
}

// Reads what follows an opening marker of this form that ends at `at`: nothing, children or Content.
#[cycle(concept)]
fn read_inside(
    modes: &Modes,
    s: &[u8],
    at: usize,
    form: Body,
    tabs: usize,
    from: usize,
    to: usize,
    nesting: Nesting,
    cells: &mut [u32],
    slot: Slot,
    names: &mut [u16],
) -> Result<Part, Refused>
    requires { Ready s.now at cells.old slot × (from ≤ to) × (to ≤ length s.now) × NamesBefore s.now (at + 1) names.old }
    ensures { ReadsInside modes.now.table.now s.now at (number_of_body form) tabs from to nesting.left cells.old slot result
        cells.new
        × NamesOnward s.now result names.new }
{
    match form {
        Body::SelfClosed => Ok(entryless(at)),
        Body::Children => read_block(modes, s, at, from, to, nesting, cells, slot, names),
        Body::Content => read_content(s, at, tabs, from, to, cells, slot),
    }
}

// Reads the children of a block from behind its marker's ">" on, with its closing marker. Its name stands from `from` to `to`.
#[cycle(concept)]
fn read_block(
    modes: &Modes,
    s: &[u8],
    at: usize,
    from: usize,
    to: usize,
    nesting: Nesting,
    cells: &mut [u32],
    slot: Slot,
    names: &mut [u16],
) -> Result<Part, Refused>
    requires { Ready s.now at cells.old slot × (from ≤ to) × (to ≤ length s.now) × NamesBefore s.now (at + 1) names.old }
    ensures { ReadsBlock modes.now.table.now s.now at from to nesting.left cells.old slot result cells.new
        × NamesOnward s.now result names.new }
{
    let start = line_rest(s, at)?;
    let body = read_children(modes, s, start, nesting, cells, slot, names)?;
    let end = read_closing(s, body.end, from, to)?;
    Ok(Part { end, ..body })
}

// Reads the lines of a children body that stand at `at`, up to the closing marker behind the tabs of its line. It is part of
// the Concept reader, so that a Concept takes one frame of stack.
#[cycle(concept)]
#[inline(always)]
fn read_children(
    modes: &Modes,
    s: &[u8],
    at: usize,
    nesting: Nesting,
    cells: &mut [u32],
    slot: Slot,
    names: &mut [u16],
) -> Result<Part, Refused>
    requires { Ready s.now at cells.old slot × NamesBefore s.now (at + 1) names.old }
    ensures { ReadsChildren modes.now.table.now s.now at nesting.left cells.old slot result cells.new
        × NamesOnward s.now result names.new }
{
    let mut i = at;
    let mut made = 0;
    let mut own = 0;
    loop {
        let mark = runs::tab_end(s, i);
        if starts_with(s, mark, &CLOSING) {
            return Ok(Part {
                end: mark,
                made,
                own,
            });
        }
        let piece = read_piece(modes, s, i, mark, nesting, cells, slot.after(made), names)?;
        i = piece.end;
        made += piece.made;
        own += piece.own;
    }
}

// Reads a blank line, or a Concept with its annotations and the rest of its line. The tabs that stand at `at` end at `mark`:
// what stands there is looked at first, since most lines have a Concept behind their tabs, or nothing.
#[cycle(concept)]
fn read_piece(
    modes: &Modes,
    s: &[u8],
    at: usize,
    mark: usize,
    nesting: Nesting,
    cells: &mut [u32],
    slot: Slot,
    names: &mut [u16],
) -> Result<Part, Refused>
    requires { Ready s.now at cells.old slot × Tabbed s.now at mark × NamesBefore s.now (at + 1) names.old }
    ensures { ReadsPiece modes.now.table.now s.now at nesting.left cells.old slot result cells.new
        × NamesOnward s.now result names.new }
{
    if !starts_with(s, mark, b"<") {
        if starts_with(s, mark, b"\n") {
            return Ok(entryless(mark + 1));
        }
        if is_blank_line(s, at) {
            return Ok(entryless(line_rest(s, at)?));
        }
        tabs_only(s, at)?;
    }
    let concept = read_annotated(modes, s, at, mark, nesting, cells, slot, names)?;
    end_line(s, concept)
}

// What was read, with the blank rest of its line.
fn end_line(s: &[u8], part: Part) -> Result<Part, Refused>
    requires { part.end ≤ length s.now }
    ensures { seen result ≡ line_ended s.now part }
{
    let end = line_rest(s, part.end)?;
    Ok(Part { end, ..part })
}

// Reads the annotations that stand at `at` and their Concept, which is due behind the tabs of the next line. The tabs at `at` end at `mark`.
#[cycle(concept)]
fn read_annotated(
    modes: &Modes,
    s: &[u8],
    at: usize,
    mark: usize,
    nesting: Nesting,
    cells: &mut [u32],
    slot: Slot,
    names: &mut [u16],
) -> Result<Part, Refused>
    requires { Ready s.now at cells.old slot × Tabbed s.now at mark × NamesBefore s.now (at + 1) names.old }
    ensures { ReadsAnnotated modes.now.table.now s.now at nesting.left cells.old slot result cells.new
        × NamesOnward s.now result names.new }
{
    let notes = read_notes(s, at, mark, cells, slot)?;
    let tag = if notes.made == 0 {
        mark
    } else {
        runs::tab_end(s, notes.end)
    };
    let concept = read_concept(
        modes,
        s,
        tag,
        tag - notes.end,
        nesting,
        cells,
        slot.after(notes.made),
        names,
    )?;
    Ok(Part {
        end: concept.end,
        made: notes.made + concept.made,
        own: notes.made + 1,
    })
}

// Reads the annotations that stand at `at`, where the tabs there end at `mark`. Most Concepts have none.
fn read_notes(
    s: &[u8],
    at: usize,
    mark: usize,
    cells: &mut [u32],
    slot: Slot,
) -> Result<Part, Refused>
    requires { In s.now at × Fits cells.old slot × Tabbed s.now at mark }
    ensures { MakesNotes s.now at cells.old slot result cells.new }
{
    if starts_with(s, mark, b"[") {
        return annotations::read_all(s, at, cells, slot);
    }
    Ok(entryless(at))
}

// The same where a sheet's root is due, with an index of trait names for the whole sheet, which is a short one where the sheet is short.
// Two arrays, and not one that is cut: only the short one's cells are set to zero then.
pub fn read_root(
    modes: &Modes,
    s: &[u8],
    at: usize,
    nesting: Nesting,
    cells: &mut [u32],
    slot: Slot,
) -> Result<Part, Refused>
    requires { Ready s.now at cells.old slot }
    ensures { ReadsAnnotated modes.now.table.now s.now at nesting.left cells.old slot result cells.new }
{
    let mark = runs::tab_end(s, at);
    if s.len() <= earlier::SHORT {
        let mut names = [0; earlier::SHORT_CELLS];
        return read_annotated(modes, s, at, mark, nesting, cells, slot, &mut names);
    }
    let mut names = [0; earlier::CELLS];
    read_annotated(modes, s, at, mark, nesting, cells, slot, &mut names)
}
