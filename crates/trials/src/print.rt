// Lines of the output, piece by piece: a text, an answer, numbers, bytes.
// Of the trials' own form: decimals split by single spaces, as document 01 has them in "Rolls". Each function fails where not all of it could
// be written.
ghost use Rattle.std.specs.Prelude.{◌≤◌, length};

use paper::{Answer, Told};
use std::io;

// Writes the text and a line end.
pub fn line(rt: &impl Print, text: &str) -> io::Result<()> {
    rt.println(text)
}

// Writes the numbers as decimals split by single spaces.
pub fn numbers(rt: &impl Print, numbers: &[u64]) -> io::Result<()> {
    for (i, number) in numbers.iter().enumerate() {
        if 0 < i {
            rt.print(" ")?;
        }
        rt.print(number)?;
    }
    Ok(())
}

// Writes the numbers, and a line end.
pub fn row(rt: &impl Print, row: &[u64]) -> io::Result<()> {
    numbers(rt, row)?;
    line(rt, "")
}

// Writes number, place and count.
pub fn answer(rt: &impl Print, answer: Answer) -> io::Result<()> {
    let told = Told::from(answer);
    numbers(
        rt,
        &[told.number as u64, told.place as u64, told.count as u64],
    )
}

// Writes each cell after a space, and a line end. Zeros behind the last cell that is not zero are left out.
pub fn cells(rt: &impl Print, cells: &[u32]) -> io::Result<()> {
    let used = cells
        .iter()
        .rposition(|&cell| cell != 0)
        .map_or(0, |last| last + 1);
    for cell in cells.iter().take(used) {
        print!(rt; " {cell}")?;
    }
    line(rt, "")
}

// Writes the bytes up to the last that is not zero, as `bytes` does. A form has no zeros.
pub fn written(rt: &impl Print, out: &[u8]) -> io::Result<()> {
    let used = out
        .iter()
        .rposition(|&byte| byte != 0)
        .map_or(0, |last| last + 1);
    bytes(rt, &out[..used])
}

// Writes the bytes in hex after a space, if there are any, and a line end.
pub fn bytes(rt: &impl Print, bytes: &[u8]) -> io::Result<()> {
    if !bytes.is_empty() {
        rt.print(" ")?;
    }
    for byte in bytes {
        print!(rt; "{byte:02x}")?;
    }
    line(rt, "")
}
