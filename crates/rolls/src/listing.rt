// Listing a roll: its faults in the paper's order, then a record for each of its sheets.
// Document 01, "Rolls", "Refusal numbers" and "Order".
ghost use Rattle.std.specs.Prelude.{◌≡◌, ◌^◌, ◌≤◌, ◌<◌, length};
ghost use Rattle.paper.specs.Answer.{told};
ghost use Rattle.paper.specs.Roll.{roll_limit, parts_of};
ghost use Rattle.rolls.specs.Boundaries.{Begins};
ghost use Rattle.rolls.specs.Records.{record_in, lay_records, unread_of, records_in};
ghost use Rattle.rolls.specs.Listing.{FindsSheets, Spans, ReadsRecord, AllFound, Lists};

use crate::LIMIT;
use crate::boundaries::{next_boundary, sheet_end};
use crate::records::{CELLS, Record, put, room};
use modes::Modes;
use paper::{Accepted, Answer, Refusal, Told};
use sheets::{read_rest, read_under};

// Makes the records of a roll. An acceptance has the roll's length and how many they are; it zeroes no cell, and what a refusal
// leaves is not told.
pub fn list(table: &[u8], roll: &[u8], records: &mut [u32], cells: &mut [u32]) -> Answer
    ensures { Lists table.now roll.now (length cells.old) records.old (told result)
        records.new }
{
    if LIMIT < roll.len() {
        return Err(Refusal::RollTooLong.at(LIMIT));
    }
    let mut index = [0; modes::index::CELLS];
    modes::read_into(table, &mut index)?;
    let modes = Modes {
        table,
        index: &index,
    };
    let first = next_boundary(roll, 0);
    if let Err(before) = read_rest(&roll[..first], 0) {
        return Err(Refusal::BeforeBoundary.at(before.place));
    }
    let found = find_sheets(roll, first, records)?;
    read_sheets(&modes, roll, records, found.count, cells);
    Ok(found)
}

// Finds the sheets of a roll, whose first one begins at `first`, and makes a record of each with its start and its end.
fn find_sheets(roll: &[u8], first: usize, records: &mut [u32]) -> Answer
    requires { (length roll.now ≤ roll_limit) × Begins roll.now first }
    ensures { FindsSheets roll.now first records.old (told result) records.new }
{
    let most = room(records.len());
    let mut at = first;
    let mut count = 0;
    while at < roll.len() {
        if most <= count {
            return Err(Refusal::TooManySheets.at(at));
        }
        let end = sheet_end(roll, at);
        put(records, count, found_at(at, end));
        at = end;
        count += 1;
    }
    Ok(Accepted { place: at, count })
}

// The record of a sheet that is found and not yet read.
fn found_at(start: usize, end: usize) -> Record
    requires { (start < 2 ^ 32) × (end < 2 ^ 32) }
    ensures { record_in result ≡ unread_of start end }
{
    Record {
        start: start as u32,
        end: end as u32,
        number: 0,
        place: 0,
        entries: 0,
    }
}

// Reads each sheet that was found, in order.
fn read_sheets(modes: &Modes, roll: &[u8], records: &mut [u32], count: usize, cells: &mut [u32])
    requires { AllFound roll.now records.old count }
    ensures { records.new ≡ lay_records records.old 0
        (records_in modes.now.table.now (length cells.old) (parts_of roll.now)) }
{
    for n in 0..count {
        read_sheet(modes, roll, records, n, cells);
    }
}

// Reads the sheet of record number `n` by itself, and puts its answer into the record.
fn read_sheet(modes: &Modes, roll: &[u8], records: &mut [u32], n: usize, cells: &mut [u32])
    requires { Spans roll.now records.old n }
    ensures { ReadsRecord modes.now.table.now roll.now (length cells.old) records.old n
        records.new }
{
    let at = n * CELLS;
    let start = records[at];
    let end = records[at + 1];
    let from = start as usize;
    let to = end as usize;
    let answer = Told::from(read_under(modes, &roll[from..to], cells));
    put(
        records,
        n,
        Record {
            start,
            end,
            number: answer.number,
            place: answer.place as u32,
            entries: answer.count as u32,
        },
    );
}
