// Adding: the canonical form of a sheet and one further LF behind the first n bytes of a roll.
// Document 01, "Rolls", and refusals 12, 14 and 16.
ghost use Rattle.std.specs.Prelude.{◌≡◌, ◌-◌, ◌≤◌, ◌<◌, min, length};
ghost use Rattle.paper.specs.Answer.{told};
ghost use Rattle.paper.specs.Limits.{sheet_limit};
ghost use Rattle.paper.specs.Roll.{roll_limit, ends_in_line};
ghost use Rattle.rolls.specs.Adding.{IsRead, SheetAdded, FormAdded, Unended};

use crate::LIMIT;
use entries::get;
use layout::write_form;
use paper::kinds::Kind;
use paper::{Accepted, Answer, Refusal};
use text::utf8::Cursor;

// Adds the form of the sheet that has just these entries, where no annotation stands before its root.
pub fn add_sheet(sheet: &[u8], cells: &[u32], roll: &mut [u8], n: usize) -> Answer
    requires { IsRead sheet.now cells.now }
    ensures { SheetAdded sheet.now cells.now roll.old n (told result) roll.new }
{
    let first = get(cells, 0);
    if first.kind == Kind::Annotation.number() {
        return Err(Refusal::RootAnnotated.at(first.start as usize - 1));
    }
    add_form(sheet, cells, roll, n)
}

// Adds the form, whatever stands before the root. The part of the roll behind the first n bytes is lent to the canonical writer, less the
// byte that the further LF takes.
fn add_form(sheet: &[u8], cells: &[u32], roll: &mut [u8], n: usize) -> Answer
    requires { IsRead sheet.now cells.now }
    ensures { FormAdded sheet.now cells.now roll.old n (told result) roll.new }
{
    let room = room_behind(roll.len(), n);
    if room == 0 {
        return Err(Refusal::NoRoom.at(0));
    }
    let most = room - 1;
    if !ends_in_line(roll, n) {
        return refuse_unended(sheet, cells, most, n);
    }
    let last = n + most;
    let written = write_form(sheet, cells, &mut roll[n..last])?;
    let end = n + written.count;
    roll[end] = b'\n';
    Ok(Accepted {
        place: 0,
        count: end + 1,
    })
}

// How many bytes may be added behind the first n of a roll with this room: up to its end, up to the limit of a roll, and no more than a
// sheet has.
fn room_behind(room: usize, n: usize) -> usize
    ensures { result ≡ min (min room roll_limit - n) sheet_limit }
{
    room.min(LIMIT).saturating_sub(n).min(Cursor::LIMIT)
}

// Whether the first n bytes are none, or end in LF.
fn ends_in_line(roll: &[u8], n: usize) -> bool
    requires { n ≤ length roll.now }
    ensures { result ≡ ends_in_line roll.now n }
{
    n == 0 || roll[n - 1] == b'\n'
}

// Refuses a roll whose first n bytes do not end in LF, but first a form that has no room. That is seen on a page of its own, since the roll
// stays as it came.
fn refuse_unended(sheet: &[u8], cells: &[u32], room: usize, n: usize) -> Answer
    requires { room < sheet_limit }
    ensures { Unended sheet.now cells.now room n (told result) }
{
    let mut page = [0; Cursor::LIMIT];
    write_form(sheet, cells, &mut page[..room])?;
    Err(Refusal::BeforeBoundary.at(n))
}
