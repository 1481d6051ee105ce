// The C interface: the public functions for programs that are not written in Rattle.
// Document 01, "Refusal numbers" and the answers of "Order"; document 02, Two. include/cdx.h declares these functions for C.
#![tactic(auto)]

ghost use Rattle.std.specs.Prelude.{◌≡◌, length};
ghost use Rattle.paper.specs.Answer.{told};
ghost use Rattle.times.specs.Numbers.{TellsTime};
ghost use Rattle.gateway.specs.Answers.{Few, three_of};
ghost use Rattle.gateway.specs.Promises.{TellsTable, TellsSheet, TellsView, TellsForm, TellsRoll, TellsAdding};

use entries::get;
use layout::write;
use paper::{Answer, Told};
use sheets::{read, view_answer};
use times::kinds::value_kind;

// Reads a mode table. The answer is number, place and count.
#[unsafe(no_mangle)]
pub extern "C" fn cdx_table(table: &[u8], answer: &mut [u32; 3])
    ensures { TellsTable table.now answer.new }
{
    tell(modes::read(table), answer);
}

// Reads a sheet under a mode table into the cells lent. The answer is number, place and count.
#[unsafe(no_mangle)]
pub extern "C" fn cdx_sheet(table: &[u8], sheet: &[u8], cells: &mut [u32], answer: &mut [u32; 3])
    ensures { TellsSheet table.now sheet.now (length cells.old)
        cells.new answer.new }
{
    tell(read(table, sheet, cells), answer);
}

// The part of the sheet that an entry's span names. The answer is number, start and end of the part; both are 0 where it is refused.
#[unsafe(no_mangle)]
pub extern "C" fn cdx_view(sheet: &[u8], cells: &[u32], entry: u64, answer: &mut [u32; 3])
    ensures { TellsView sheet.now cells.now entry answer.new }
{
    if let Err(refused) = view_answer(sheet, cells, entry as usize) {
        *answer = [refused.refusal.into(), 0, 0];
        return;
    }
    let laid = get(cells, entry as usize);
    *answer = [0, laid.start, laid.end];
}

// The kind of the time that these bytes are, braces and all, by its number; 0 where they are no time.
#[unsafe(no_mangle)]
pub extern "C" fn cdx_time(value: &[u8]) -> u32
    ensures { TellsTime value.now result }
{
    match value_kind(value) {
        Some(kind) => kind.number(),
        None => 0,
    }
}

// Writes the canonical form of a sheet that reads without refusal to the room lent, and leaves all behind it as it came; a refusal
// leaves all of it. The cells are lent to the reading, and zero after every answer. The answer is number, place and bytes written.
#[unsafe(no_mangle)]
pub extern "C" fn cdx_write(
    table: &[u8],
    sheet: &[u8],
    cells: &mut [u32],
    out: &mut [u8],
    answer: &mut [u32; 3],
)
    ensures { TellsForm table.now sheet.now (length cells.old) out.old
        cells.new out.new answer.new }
{
    tell(write(table, sheet, cells, out), answer);
}

// Reads a roll into the records lent. The cells are lent to the reading of each sheet, and zero after every answer. The answer is
// number, place and count of records; a refusal leaves every record cell zero.
#[unsafe(no_mangle)]
pub extern "C" fn cdx_roll(
    table: &[u8],
    roll: &[u8],
    records: &mut [u32],
    cells: &mut [u32],
    answer: &mut [u32; 3],
)
    ensures { TellsRoll table.now roll.now (length records.old) (length cells.old)
        records.new cells.new answer.new }
{
    tell(rolls::read(table, roll, records, cells), answer);
}

// Adds the canonical form of a sheet that reads without refusal, and one further LF, behind the first n bytes of the roll, and leaves
// every other byte of it as it came; a refusal leaves all of it. The cells are lent to the reading, and zero after every answer. The
// answer is number, place and the roll's new length.
#[unsafe(no_mangle)]
pub extern "C" fn cdx_add(
    table: &[u8],
    sheet: &[u8],
    roll: &mut [u8],
    n: u64,
    cells: &mut [u32],
    answer: &mut [u32; 3],
)
    ensures { TellsAdding table.now sheet.now roll.old n (length cells.old)
        roll.new cells.new answer.new }
{
    tell(rolls::add(table, sheet, roll, n as usize, cells), answer);
}

// Writes an answer's number, place and count. They are small enough for an answer's cells.
fn tell(given: Answer, answer: &mut [u32; 3])
    requires { Few (told given) }
    ensures { answer.new ≡ three_of (told given) }
{
    let given = Told::from(given);
    *answer = [given.number, given.place as u32, given.count as u32];
}
