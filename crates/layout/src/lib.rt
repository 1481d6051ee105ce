// Canonical form of a sheet, written to room that is lent.
// Document 01, "Canonical form", refusal 12, and the answers of "Order".
#![tactic(auto)]

ghost use Rattle.std.specs.Prelude.{◌≡◌, min, length};
ghost use Rattle.paper.specs.Answer.{told};
ghost use Rattle.paper.specs.Limits.{sheet_limit};
ghost use Rattle.layout.specs.Promises.{WritesSheet, WritesUnder, FormWritten};

use entries::{CELLS, zero_from};
use modes::Modes;
use paper::{Accepted, Answer, Refusal};
use printing::concepts::put_sheet;
use sheets::read_under;
use text::utf8::Cursor;

// Writes the canonical form of a sheet that reads without refusal. The cells are lent to the reading, and zero after every answer.
// A refusal leaves `out` as it came.
pub fn write(table: &[u8], sheet: &[u8], cells: &mut [u32], out: &mut [u8]) -> Answer
    ensures { WritesSheet table.now sheet.now (length cells.old) out.old
        result out.new cells.new }
{
    let mut index = [0; modes::index::CELLS];
    let answer = match modes::read_into(table, &mut index) {
        Ok(_) => write_under(
            &Modes {
                table,
                index: &index,
            },
            sheet,
            cells,
            out,
        ),
        refused => refused,
    };
    zero_from(cells, 0);
    answer
}

// Writes the form under a table that is in order. What it leaves in the cells is not told.
fn write_under(modes: &Modes, sheet: &[u8], cells: &mut [u32], out: &mut [u8]) -> Answer
    ensures { WritesUnder modes.now.table.now sheet.now (length cells.old) out.old (told result) out.new }
{
    let read = read_under(modes, sheet, cells)?;
    let end = read.count * CELLS;
    write_form(sheet, &cells[..end], out)
}

// Writes the canonical form of the sheet that has just these entries. It is laid out on a page first, so that nothing is written where it
// does not fit. Were it made part of its callers, the page would take stack while the sheet is read.
#[inline(never)]
pub fn write_form(sheet: &[u8], cells: &[u32], out: &mut [u8]) -> Answer
    ensures { FormWritten sheet.now cells.now out.old (told result) out.new }
{
    let mut form = [0; Cursor::LIMIT];
    let end = put_sheet(&mut form, sheet, cells);
    if room(out.len()) < end {
        return Err(Refusal::NoRoom.at(0));
    }
    out[..end].copy_from_slice(&form[..end]);
    Ok(Accepted {
        place: 0,
        count: end,
    })
}

// The longest form that is written where so many bytes are lent.
fn room(lent: usize) -> usize
    ensures { result ≡ min lent sheet_limit }
{
    lent.min(Cursor::LIMIT)
}
