// Lines of the output: a record as five decimals, a refusal as the word, its number and its place.
// Document 01, "Rolls". Each function fails where not all of it could be written.
ghost use Rattle.std.specs.Prelude.{◌*◌, ◌≤◌, length};
ghost use Rattle.paper.specs.Roll.{record_cells};

use paper::Refused;
use std::io;

// The cells of a record.
const RECORD: usize = 5;

// Prints so many records, each on a line.
pub fn records(rt: &impl Print, cells: &[u32], count: usize) -> io::Result<()>
    requires { count * record_cells ≤ length cells.now }
{
    for row in cells.chunks_exact(RECORD).take(count) {
        record(rt, row)?;
    }
    Ok(())
}

// Prints numbers as decimals split by single spaces, and a line end.
fn record(rt: &impl Print, cells: &[u32]) -> io::Result<()> {
    for (i, cell) in cells.iter().enumerate() {
        if 0 < i {
            rt.print(" ")?;
        }
        rt.print(cell)?;
    }
    rt.println("")
}

// Prints the refusal of a roll.
pub fn refusal(rt: &impl Print, refused: Refused) -> io::Result<()> {
    let number = u32::from(refused.refusal);
    let place = refused.place;
    println!(rt; "refused {number} {place}")
}

// Says on standard error why the program failed. Where there is no memory for that text, it is said with the number behind it.
pub fn failure(rt: &(impl Eprint + Alloc), error: io::Error) -> io::Result<()> {
    let Ok(text) = error.to_string(rt.alloc()) else {
        return eprintln!(rt; "roll: {error}");
    };
    let reason = reason(text.as_str());
    eprintln!(rt; "roll: {reason}")
}

// The reason alone, without the number that the library puts behind it.
fn reason(text: &str) -> &str {
    match text.split_once(" (os error ") {
        Some((reason, _)) => reason,
        None => text,
    }
}
