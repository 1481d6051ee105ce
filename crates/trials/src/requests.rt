// Requests: what a line asks, and its answer. A letter says what is asked; behind it stand words, each after one space.
// Document 01, "The grammar", Bytes and Values, "The mode table", "Entries", "Canonical form", and the answers of "Order".
ghost use Rattle.std.specs.Prelude.{◌≤◌, length};
ghost use Rattle.trials.specs.Lines.{line_limit, Request, cell_limit, room_limit};

use crate::{hex, print, words};
use paper::Refused;
use std::io;
use text::utf8;
use values::reading;

// The longest line spells fewer bytes than this, and so much room can be lent for a form: twice as much as the longest takes.
const ROOM: usize = 32768;

// So many cells can be lent: twice as many as the entries of a sheet fill.
const CELLS: usize = 16384;

// What cells hold before a sheet is read, so that every zero behind its entries is the reader's.
const STALE: u32 = 4294967295;

// Answers a line. TABLE, SHEET and BYTES are bytes in hex, the other words are decimals; an empty word is no bytes.
//     b BYTES              may a sheet have these bytes? 0 and their length, or the refusal and its place
//     t TABLE              reads a mode table: number, place and count
//     v BYTES              reads the value that stands in front: 0, its end and its form, or the refusal and its place
//     s TABLE SHEET LENT   reads a sheet with so many cells lent: number, place, count, and the cells up to the last that is not zero
//     f TABLE SHEET LENT ROOM
//                          writes a sheet's canonical form to so much room: number, place, count, and the bytes that the room has then
//     p SHEET ENTRY CELL.. views an entry of these cells: number, place and count of the second call, and the part in hex
// Any other line is answered `?`.
pub fn answer(rt: &impl Print, line: &[u8]) -> io::Result<()>
    requires { length line.now ≤ line_limit }
{
    if line.len() < 2 || line[1] != b' ' || !is_answered(rt, line)? {
        print::line(rt, "?")?;
    }
    Ok(())
}

// Answers what the letter of a line asks of the words behind it. False, and nothing is printed, where it asks nothing of such words.
fn is_answered(rt: &impl Print, line: &[u8]) -> io::Result<bool>
    requires { Request line.now }
{
    match line[0] {
        b's' | b'f' | b'p' => several(rt, line),
        _ => bytes(rt, line),
    }
}

// Answers a request whose one word is bytes.
fn bytes(rt: &impl Print, line: &[u8]) -> io::Result<bool>
    requires { Request line.now }
{
    let mut room = [0u8; ROOM];
    let Some(n) = hex::read(&line[2..], &mut room) else {
        return Ok(false);
    };
    let bytes = &room[..n];
    match line[0] {
        b'b' => sheet_bytes(rt, bytes)?,
        b't' => mode_table(rt, bytes)?,
        b'v' => value(rt, bytes)?,
        _ => {
            return Ok(false);
        }
    }
    Ok(true)
}

fn sheet_bytes(rt: &impl Print, sheet: &[u8]) -> io::Result<()> {
    match utf8::check(sheet) {
        Ok(()) => print::row(rt, &[0, sheet.len() as u64]),
        Err(refused) => refusal(rt, refused),
    }
}

// Answers a refusal's number and its place.
fn refusal(rt: &impl Print, refused: Refused) -> io::Result<()> {
    let number = u32::from(refused.refusal);
    print::row(rt, &[number as u64, refused.place as u64])
}

fn mode_table(rt: &impl Print, table: &[u8]) -> io::Result<()> {
    print::answer(rt, modes::read(table))?;
    print::line(rt, "")
}

fn value(rt: &impl Print, bytes: &[u8]) -> io::Result<()> {
    match reading::read_whole(bytes, 0) {
        Ok(value) => print::row(rt, &[0, value.end as u64, value.form.number() as u64]),
        Err(refused) => refusal(rt, refused),
    }
}

// Answers a request of several words: two, and the rest of the line.
fn several(rt: &impl Print, line: &[u8]) -> io::Result<bool>
    requires { Request line.now }
{
    let first_end = words::end(line, 2);
    let second_start = words::past(line, first_end);
    let second_end = words::end(line, second_start);
    let rest_start = words::past(line, second_end);
    let first = &line[2..first_end];
    let second = &line[second_start..second_end];
    let rest = &line[rest_start..];
    if line[0] == b'p' {
        return part(rt, first, second, rest);
    }
    sheet(rt, line[0], first, second, rest)
}

// Answers a request whose first words are a table and a sheet in hex.
fn sheet(rt: &impl Print, letter: u8, table: &[u8], sheet: &[u8], asked: &[u8]) -> io::Result<bool>
    requires { (length table.now ≤ line_limit) × (length sheet.now ≤ line_limit) }
{
    let mut table_room = [0u8; ROOM];
    let mut sheet_room = [0u8; ROOM];
    let Some(t) = hex::read(table, &mut table_room) else {
        return Ok(false);
    };
    let Some(n) = hex::read(sheet, &mut sheet_room) else {
        return Ok(false);
    };
    of_sheet(rt, letter, &table_room[..t], &sheet_room[..n], asked)
}

// Answers what the letter asks of a table, a sheet and the words behind them.
fn of_sheet(
    rt: &impl Print,
    letter: u8,
    table: &[u8],
    sheet: &[u8],
    asked: &[u8],
) -> io::Result<bool> {
    if letter == b'f' {
        form(rt, table, sheet, asked)
    } else {
        reading(rt, table, sheet, asked)
    }
}

// Reads a sheet with as many cells lent as are asked for.
fn reading(rt: &impl Print, table: &[u8], sheet: &[u8], asked: &[u8]) -> io::Result<bool> {
    let Some(lent) = words::number(asked) else {
        return Ok(false);
    };
    if CELLS < lent {
        return Ok(false);
    }
    read_lent(rt, table, sheet, lent)?;
    Ok(true)
}

// Reads a sheet with so many cells lent.
fn read_lent(rt: &impl Print, table: &[u8], sheet: &[u8], lent: usize) -> io::Result<()>
    requires { lent ≤ cell_limit }
{
    let mut cells = [STALE; CELLS];
    read_into(rt, table, sheet, &mut cells[..lent])
}

fn read_into(rt: &impl Print, table: &[u8], sheet: &[u8], cells: &mut [u32]) -> io::Result<()> {
    print::answer(rt, sheets::read(table, sheet, cells))?;
    print::cells(rt, cells)
}

// Writes a sheet's form with as many cells and as much room lent as are asked for.
fn form(rt: &impl Print, table: &[u8], sheet: &[u8], asked: &[u8]) -> io::Result<bool> {
    let lent_end = words::end(asked, 0);
    let room_start = words::past(asked, lent_end);
    let Some(lent) = words::number(&asked[..lent_end]) else {
        return Ok(false);
    };
    let Some(room) = words::number(&asked[room_start..]) else {
        return Ok(false);
    };
    if CELLS < lent || ROOM < room {
        return Ok(false);
    }
    write_lent(rt, table, sheet, lent, room)?;
    Ok(true)
}

// Writes a sheet's form with so many cells and so much room lent.
fn write_lent(
    rt: &impl Print,
    table: &[u8],
    sheet: &[u8],
    lent: usize,
    room: usize,
) -> io::Result<()>
    requires { (lent ≤ cell_limit) × (room ≤ room_limit) }
{
    let mut cells = [STALE; CELLS];
    let mut out = [0u8; ROOM];
    write_into(rt, table, sheet, &mut cells[..lent], &mut out[..room])
}

fn write_into(
    rt: &impl Print,
    table: &[u8],
    sheet: &[u8],
    cells: &mut [u32],
    out: &mut [u8],
) -> io::Result<()> {
    print::answer(rt, layout::write(table, sheet, cells, out))?;
    print::written(rt, out)
}

// Views an entry: the words are the sheet in hex, the entry's number, and the cells.
fn part(rt: &impl Print, sheet: &[u8], entry: &[u8], cells: &[u8]) -> io::Result<bool>
    requires { length sheet.now ≤ line_limit }
{
    let mut sheet_room = [0u8; ROOM];
    let mut cell_room = [0u32; CELLS];
    let Some(n) = hex::read(sheet, &mut sheet_room) else {
        return Ok(false);
    };
    let Some(number) = words::number(entry) else {
        return Ok(false);
    };
    let Some(k) = words::cells(cells, &mut cell_room) else {
        return Ok(false);
    };
    view(rt, &sheet_room[..n], &cell_room[..k], number)?;
    Ok(true)
}

// Views an entry, and asks for the view's number by the second call.
fn view(rt: &impl Print, sheet: &[u8], cells: &[u32], entry: usize) -> io::Result<()> {
    print::answer(rt, sheets::view_answer(sheet, cells, entry))?;
    print::bytes(rt, sheets::view(sheet, cells, entry))
}
