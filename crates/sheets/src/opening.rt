// The opening marker of a Concept: "<", name, traits, and ">" or "/>".
// Document 01, "The grammar", Markers; a name is judged by 4, 10, 5 and 11, in this order.
ghost use Rattle.std.specs.Prelude.{◌≡◌, suc, ◌+◌, ◌≤◌, ◌<◌, length, drop};
ghost use Rattle.paper.specs.Forms.{number_of_body};
ghost use Rattle.paper.specs.Reading.{head, bounds};
ghost use Rattle.entries.specs.Laid.{Fits};
ghost use Rattle.lines.specs.Parts.{reached, passed, In};
ghost use Rattle.sheets.specs.Traits.{NamesBefore, NamesOnward};
ghost use Rattle.sheets.specs.Opening.{part_of, ReadsOpening, ReadsNamed, ReadsMarker};

use crate::traits::read_traits;
use entries::Slot;
use lines::marks::{Ending, read_ending};
use lines::part::{Whose, byte_due, name_end};
use modes::Modes;
use paper::forms::Body;
use paper::{Mode, Refusal, Refused};
use text::nesting::Nesting;
use text::runs::{self, White};

// What an opening marker says: the Concept's form, where its name and the marker itself end, how many entries its traits made,
// how many of them are traits, and how many Concepts may still be opened inside.
#[derive(Clone, Copy)]
pub struct Opened {
    pub form: Body,
    pub to: usize,
    pub end: usize,
    pub made: usize,
    pub own: usize,
    pub inside: Nesting,
}

// Reads the opening marker that is due at `at`, and enters its traits behind the entry that is kept free for the Concept.
pub fn read_opening(
    modes: &Modes,
    s: &[u8],
    at: usize,
    nesting: Nesting,
    cells: &mut [u32],
    slot: Slot,
    names: &mut [u16],
) -> Result<Opened, Refused>
    requires { In s.now at × Fits cells.old slot × NamesBefore s.now (at + 1) names.old }
    ensures { ReadsOpening modes.now.table.now s.now at nesting.left cells.old slot result cells.new
        × NamesOnward s.now (part_of result) names.new }
{
    let to = read_head(s, at)?;
    read_named(modes, s, at, to, nesting, cells, slot, names)
}

// Past the "<" that is due at `at`, and the name of a Concept.
fn read_head(s: &[u8], at: usize) -> Result<usize, Refused>
    requires { at ≤ length s.now }
    ensures { reached result ≡ passed s.now (head bounds (drop at s.now)) }
{
    let start = byte_due(s, at, b'<')?;
    name_end(s, start, Whose::Concepts)
}

// Goes on behind the name that stands from behind the "<" at `at` to `to`.
fn read_named(
    modes: &Modes,
    s: &[u8],
    at: usize,
    to: usize,
    nesting: Nesting,
    cells: &mut [u32],
    slot: Slot,
    names: &mut [u16],
) -> Result<Opened, Refused>
    requires { In s.now to × (at < to) × Fits cells.old slot × NamesBefore s.now (at + 1) names.old }
    ensures { ReadsNamed modes.now.table.now s.now at to nesting.left cells.old slot result cells.new
        × NamesOnward s.now (part_of result) names.new }
{
    let start = at + 1;
    let Some(inside) = nesting.step() else {
        return Err(Refusal::TooDeep.at(at));
    };
    let block = match modes.mode_of(&s[start..to]) {
        Mode::Absent => return Err(Refusal::Unlisted.at(start)),
        Mode::Children => Body::Children,
        Mode::Content => Body::Content,
    };
    read_marker(s, start, to, block, inside, cells, slot, names)
}

// Goes on behind the name that stands from `start` to `to`, which is of a Concept that may stand here;
// if a block opens, its form is `block`.
fn read_marker(
    s: &[u8],
    start: usize,
    to: usize,
    block: Body,
    inside: Nesting,
    cells: &mut [u32],
    slot: Slot,
    names: &mut [u16],
) -> Result<Opened, Refused>
    requires { In s.now to × (start ≤ to) × Fits cells.old slot × NamesBefore s.now start names.old }
    ensures { ReadsMarker s.now start to (number_of_body block) (suc inside.left) cells.old slot result cells.new
        × NamesOnward s.now (part_of result) names.new }
{
    if slot.is_full() {
        return Err(Refusal::NoEntryLeft.at(start));
    }
    let traits = read_traits(s, to, cells, slot.under(), names)?;
    let (form, end) = match read_ending(s, runs::end::<White>(s, traits.end))? {
        Ending::Closed(end) => (Body::SelfClosed, end),
        Ending::Block(end) => (block, end),
    };
    Ok(Opened {
        form,
        to,
        end,
        made: traits.made,
        own: traits.own,
        inside,
    })
}
