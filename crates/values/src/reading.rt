// Values of every kind, those that hold items among them, and a trait's whole value.
// Document 01, "The grammar", Values, and refusals 9 and 10 of "Refusal numbers" and "Order"; document 02, Four: the place of a 6, and Five.
ghost use Rattle.std.specs.Prelude.{[], ◌≤◌, length};
ghost use Rattle.paper.specs.Limits.{bracket_limit};
ghost use Rattle.paper.specs.Values.{value_form, bracket};
ghost use Rattle.paper.specs.ReadingValues.{value_of, item_and};
ghost use Rattle.leaves.specs.Shown.{JudgesAt};
ghost use Rattle.leaves.specs.Kinds.{enders_of};
ghost use Rattle.values.specs.Brackets.{form_in};

use crate::brackets::{closes, goes_on, is_empty, opens};
use crate::labels::read_label;
use leaves::judged::Judged;
use leaves::read_leaf;
use leaves::words::Around;
use paper::brackets::Bracket;
use paper::{Refusal, Refused};
use text::nesting::Nesting;
use text::runs::{self, White};

// Reads a trait's whole value. Most values begin with no bracket, and are read at once: by `read_value` alone each takes 27 instructions more.
pub fn read_whole(s: &[u8], at: usize) -> Result<Judged, Refused>
    ensures { JudgesAt value_form (value_of bracket_limit []) s.now at result }
{
    if opens(s, at).is_none() {
        return read_leaf(s, at, Around::Nothing);
    }
    read_value(s, at, Nesting::new(Nesting::BRACKETS), Around::Nothing)
}

// Reads the value that stands at `at`. A bracket is refused as the item at fault is, place and all.
#[cycle(read_items_read_value)]
fn read_value(s: &[u8], at: usize, nesting: Nesting, around: Around) -> Result<Judged, Refused>
    ensures { JudgesAt value_form (value_of nesting.left (enders_of around)) s.now at result }
{
    let Some(kind) = opens(s, at) else {
        return read_leaf(s, at, around);
    };
    let first = at + kind.opener_length();
    let Some(fewer) = nesting.step() else {
        return Err(Refusal::TooDeep.at(first - 1));
    };
    if is_empty(s, first, kind) {
        return Ok(Judged {
            form: kind.form(),
            end: first + 1,
        });
    }
    read_items(s, first, kind, fewer)
}

// Reads the items of a bracket, the first of which is due at `at`, up to what closes it.
#[cycle(read_items_read_value)]
fn read_items(s: &[u8], at: usize, kind: Bracket, nesting: Nesting) -> Result<Judged, Refused>
    requires { at ≤ length s.now }
    ensures { JudgesAt (form_in kind) (item_and kind nesting.left (bracket kind)) s.now at result }
{
    let around = Around::inside(kind);
    let mut i = at;
    loop {
        let value = read_label(s, i, kind)?.value;
        let end = read_value(s, value, nesting, around)?.end;
        if s.len() <= end {
            return Err(Refusal::Cut.at(s.len()));
        }
        let behind = end + 1;
        if closes(s, end, kind) {
            return Ok(Judged {
                form: kind.form(),
                end: behind,
            });
        }
        if !goes_on(s, end) {
            return Err(Refusal::Value.at(end));
        }
        i = runs::end::<White>(s, behind);
    }
}
