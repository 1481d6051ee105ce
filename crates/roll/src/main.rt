// Prints a line for each sheet of a roll: `roll TABLE < ROLL`.
// Document 01, "Rolls".
#![tactic(auto)]

mod input;
mod print;

use std::io;
use std::process::ExitCode;

// The longest mode table and the longest roll, each with one byte more: what is longer still is refused by its number all the same.
const TABLE: usize = 4227;

const ROLL: usize = 65537;

// Room for 256 records and for 1,024 entries.
const RECORDS: usize = 1280;

const CELLS: usize = 8192;

fn main(rt: HostRuntime) -> ExitCode {
    let mut table = [0u8; TABLE];
    let mut roll = [0u8; ROLL];
    let t = input::table(&rt, &mut table);
    let printed = match input::read(&mut rt.stdin(), &mut roll) {
        Ok(n) => print_answer(&rt, &table[..t], &roll[..n]),
        Err(error) => Err(error),
    };
    match printed {
        Ok(()) => ExitCode::SUCCESS,
        Err(error) => {
            let _ = print::failure(&rt, error);
            ExitCode::FAILURE
        }
    }
}

// Prints what reading the roll answers.
fn print_answer(rt: &impl Print, table: &[u8], roll: &[u8]) -> io::Result<()> {
    let mut records = [0u32; RECORDS];
    let mut cells = [0u32; CELLS];
    match rolls::read(table, roll, &mut records, &mut cells) {
        Ok(read) => print::records(rt, &records, read.count),
        Err(refused) => print::refusal(rt, refused),
    }
}
