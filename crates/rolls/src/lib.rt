// Rolls: the record of each sheet that one holds, and a sheet added to one.
// Document 01, "Rolls", refusals 12 to 16, and the answers of "Order".
#![tactic(auto)]

mod adding;
mod boundaries;
mod listing;
mod records;

ghost use Rattle.std.specs.Prelude.{length};
ghost use Rattle.paper.specs.Answer.{told};
ghost use Rattle.rolls.specs.Promises.{ReadsRoll, AddsSheet, AddsUnder};

use adding::add_sheet;
use entries::{CELLS, zero_from};
use listing::list;
use modes::Modes;
use paper::{Answer, Told};
use sheets::read_under;

// A roll has at most so many bytes.
pub const LIMIT: usize = 65536;

// Reads a roll. An acceptance has its length and how many records it made; the cells behind them are zero. A refusal leaves every
// record cell zero. The entry cells are lent to the reading of each sheet, and zero after every answer.
pub fn read(table: &[u8], roll: &[u8], records: &mut [u32], cells: &mut [u32]) -> Answer
    ensures { ReadsRoll table.now roll.now (length records.old) (length cells.old)
        result records.new cells.new }
{
    let answer = list(table, roll, records, cells);
    zero_from(records, Told::from(answer).count * records::CELLS);
    zero_from(cells, 0);
    answer
}

// Adds the canonical form of a sheet that reads without refusal, and one further LF, behind the first n bytes of the roll. The cells are
// lent to the reading, and zero after every answer. A refusal leaves the roll as it came.
pub fn add(table: &[u8], sheet: &[u8], roll: &mut [u8], n: usize, cells: &mut [u32]) -> Answer
    ensures { AddsSheet table.now sheet.now roll.old n (length cells.old) result
        roll.new cells.new }
{
    let mut index = [0; modes::index::CELLS];
    let answer = match modes::read_into(table, &mut index) {
        Ok(_) => add_under(
            &Modes {
                table,
                index: &index,
            },
            sheet,
            roll,
            n,
            cells,
        ),
        refused => refused,
    };
    zero_from(cells, 0);
    answer
}

// Adds the form under a table that is in order. What it leaves in the cells is not told.
fn add_under(modes: &Modes, sheet: &[u8], roll: &mut [u8], n: usize, cells: &mut [u32]) -> Answer
    ensures { AddsUnder modes.now.table.now sheet.now roll.old n (length cells.old) (told result) roll.new }
{
    let read = read_under(modes, sheet, cells)?;
    let end = read.count * CELLS;
    add_sheet(sheet, &cells[..end], roll, n)
}
