// Sheets: reading one under a mode table, and the part of it that an entry's span names.
// Document 01, "Entries", "Refusal numbers" and "Order".
#![tactic(auto)]

mod concepts;
mod opening;
mod traits;

ghost use Rattle.std.specs.Prelude.{◌≡◌, ◌≤◌, length, drop};
ghost use Rattle.paper.specs.Answer.{told};
ghost use Rattle.paper.specs.Limits.{sheet_limit};
ghost use Rattle.lines.specs.Parts.{reached, passed};
ghost use Rattle.sheets.specs.Promises.{ReadsSheet, Views, ViewAnswers};
ghost use Rattle.sheets.specs.Sheets.{ReadsUnder, ReadsTree, behind_root, LendsPart};

use concepts::read_root;
use entries::{CELLS, Slot, TOP, get, room, zero_from};
use lines::blank::{blank_lines, last_blanks, tabs_only};
use lines::part::Part;
use modes::Modes;
use paper::{Accepted, Answer, Refusal, Refused, Told};
use text::nesting::Nesting;
use text::utf8;
use text::utf8::Cursor;

// Reads a sheet. An acceptance has its length and how many entries it made; the cells behind them are zero.
// A refusal leaves every cell zero.
pub fn read(table: &[u8], sheet: &[u8], cells: &mut [u32]) -> Answer
    ensures { ReadsSheet table.now sheet.now (length cells.old) result cells.new }
{
    let mut index = [0; modes::index::CELLS];
    let answer = match modes::read_into(table, &mut index) {
        Ok(_) => read_under(
            &Modes {
                table,
                index: &index,
            },
            sheet,
            cells,
        ),
        refused => refused,
    };
    zero_from(cells, Told::from(answer).count * CELLS);
    answer
}

// Reads a sheet under a table that is in order. It zeroes no cell: those behind the entries are as they were, and what a refusal leaves is
// not told.
pub fn read_under(modes: &Modes, sheet: &[u8], cells: &mut [u32]) -> Answer
    ensures { ReadsUnder modes.now.table.now sheet.now cells.old (told result) cells.new }
{
    if Cursor::is_too_long(sheet) {
        return Err(Refusal::SheetTooLong.at(Cursor::LIMIT));
    }
    utf8::check(sheet)?;
    let tree = read_tree(modes, sheet, cells)?;
    Ok(Accepted {
        place: tree.end,
        count: tree.made,
    })
}

// Reads the root with its annotations and the blank lines around them, and enters it from the first cell on.
fn read_tree(modes: &Modes, s: &[u8], cells: &mut [u32]) -> Result<Part, Refused>
    requires { length s.now ≤ sheet_limit }
    ensures { ReadsTree modes.now.table.now s.now cells.old result cells.new }
{
    let first = blank_lines(s, 0)?;
    tabs_only(s, first)?;
    let slot = Slot {
        next: 0,
        room: room(cells.len()),
        parent: TOP,
    };
    let root = read_root(
        modes,
        s,
        first,
        Nesting::new(Nesting::CONCEPTS),
        cells,
        slot,
    )?;
    let end = read_rest(s, root.end)?;
    Ok(Part { end, ..root })
}

// Past the blank lines that stand at `at`, as behind the root, up to the end of input.
pub fn read_rest(s: &[u8], at: usize) -> Result<usize, Refused>
    requires { at ≤ length s.now }
    ensures { reached result ≡ passed s.now (behind_root (drop at s.now)) }
{
    let end = blank_lines(s, at)?;
    last_blanks(s, end)
}

// The part of the sheet that an entry's span names; empty where the entry cannot be viewed.
pub fn view<'a>(sheet: &'a [u8], cells: &[u32], entry: usize) -> &'a [u8]
    ensures { Views sheet.now cells.now entry result.now }
{
    part_of(sheet, cells, entry).unwrap_or(&sheet[..0])
}

// Whether an entry can be viewed: 0, 0 and the length of its part, or 17.
pub fn view_answer(sheet: &[u8], cells: &[u32], entry: usize) -> Answer
    ensures { ViewAnswers sheet.now cells.now entry result }
{
    match part_of(sheet, cells, entry) {
        Some(part) => Ok(Accepted {
            place: 0,
            count: part.len(),
        }),
        None => Err(Refusal::View.at(0)),
    }
}

// An entry can be viewed where it lies wholly in the cells, has a kind, and its span lies in the sheet and is not reversed.
fn part_of<'a>(sheet: &'a [u8], cells: &[u32], entry: usize) -> Option<&'a [u8]>
    ensures { LendsPart sheet.now cells.now entry result }
{
    let laid = get(cells, entry);
    if laid.kind == 0 {
        return None;
    }
    sheet.get(laid.start as usize..laid.end as usize)
}
