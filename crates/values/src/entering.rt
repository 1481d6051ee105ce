// Entering the items of a value that was read whole.
// Document 01, "Entries": items in depth-first order; refusal 11; document 02, Five: a map's item has its key in the name cells.
ghost use Rattle.std.specs.Prelude.{◌≡◌, [], IfErr};
ghost use Rattle.paper.specs.Limits.{bracket_limit};
ghost use Rattle.paper.specs.Values.{value_form};
ghost use Rattle.paper.specs.ReadingValues.{value_of};
ghost use Rattle.leaves.specs.Shown.{JudgesAt};
ghost use Rattle.leaves.specs.Kinds.{enders_of};
ghost use Rattle.values.specs.Entering.{without_items, no_entry_left, Ready, EntersValue, EntersItems};

use crate::brackets::{goes_on, is_empty, opens};
use crate::labels::read_label;
use entries::{Entry, Slot, put};
use leaves::judged::Judged;
use leaves::read_leaf;
use leaves::words::Around;
use paper::brackets::Bracket;
use paper::forms::Form;
use paper::kinds::Kind;
use paper::{Refusal, Refused};
use text::nesting::Nesting;
use text::runs::{self, White};

// A value whose items are entered: its form and end, how many entries its items took at any depth, and how many items are its own.
#[derive(Clone, Copy)]
pub struct Entered {
    pub form: Form,
    pub end: usize,
    pub made: usize,
    pub own: usize,
}

// Enters the items of a trait's whole value, which was read as `value`. What holds no items was judged by that reading. The first item that
// has no entry left is refused. There is no other refusal: what was refused is never entered, and its place is told as if no entry were left.
pub fn enter_whole(
    s: &[u8],
    at: usize,
    value: Result<Judged, Refused>,
    cells: &mut [u32],
    slot: Slot,
) -> Result<Entered, Refused>
    requires { Ready s.now at bracket_limit cells.old slot × JudgesAt value_form (value_of bracket_limit []) s.now at value }
    ensures entered { EntersValue bracket_limit [] s.now at cells.old slot result cells.new }
    ensures full { IfErr result (λ refused. refused ≡ no_entry_left refused.place) }
{
    let entered = if opens(s, at).is_none() {
        value.map(without_items)
    } else {
        enter(
            s,
            at,
            Nesting::new(Nesting::BRACKETS),
            Around::Nothing,
            cells,
            slot,
        )
    };
    entered.map_err(|refused| Refusal::NoEntryLeft.at(refused.place))
}

// Enters the items of the value that stands at `at`, which was read without refusal.
#[cycle(enter_enter_items)]
fn enter(
    s: &[u8],
    at: usize,
    nesting: Nesting,
    around: Around,
    cells: &mut [u32],
    slot: Slot,
) -> Result<Entered, Refused>
    requires { Ready s.now at nesting.left cells.old slot }
    ensures { EntersValue nesting.left (enders_of around) s.now at cells.old slot result cells.new }
{
    let Some(kind) = opens(s, at) else {
        return Ok(without_items(read_leaf(s, at, around)?));
    };
    let Some(fewer) = nesting.step() else {
        return Err(Refusal::TooDeep.at(at));
    };
    let first = at + kind.opener_length();
    if is_empty(s, first, kind) {
        return Ok(without_items(Judged {
            form: kind.form(),
            end: first + 1,
        }));
    }
    enter_items(s, first, kind, fewer, cells, slot)
}

// A value that has no items: one that begins with no bracket, or an empty one. No `From`: others that were read have some.
fn without_items(read: Judged) -> Entered
    ensures { result ≡ without_items read }
{
    Entered {
        form: read.form,
        end: read.end,
        made: 0,
        own: 0,
    }
}

// Enters the items of a bracket, the first of which stands at `at`, each before the items inside it.
#[cycle(enter_enter_items)]
fn enter_items(
    s: &[u8],
    at: usize,
    kind: Bracket,
    nesting: Nesting,
    cells: &mut [u32],
    slot: Slot,
) -> Result<Entered, Refused>
    requires { Ready s.now at nesting.left cells.old slot }
    ensures { EntersItems kind nesting.left s.now at cells.old slot result cells.new }
{
    let around = Around::inside(kind);
    let mut i = at;
    let mut made = 0;
    let mut own = 0;
    loop {
        let next = slot.after(made);
        if next.is_full() {
            return Err(Refusal::NoEntryLeft.at(i));
        }
        let label = read_label(s, i, kind)?;
        let item = enter(s, label.value, nesting, around, cells, next.under())?;
        let n = next.next;
        put(
            cells,
            n,
            Entry {
                kind: Kind::Item.number(),
                form: item.form.number(),
                parent: slot.parent,
                count: item.own as u32,
                name_start: i as u32,
                name_end: label.key as u32,
                start: label.value as u32,
                end: item.end as u32,
            },
        );
        made += 1 + item.made;
        own += 1;
        if !goes_on(s, item.end) {
            return Ok(Entered {
                form: kind.form(),
                end: item.end + 1,
                made,
                own,
            });
        }
        i = runs::end::<White>(s, item.end + 1);
    }
}
