// What the program is given: a mode table in a file, and a roll on standard input.
// Document 01, "Rolls": a table file that can't be opened counts as empty.
ghost use Rattle.std.specs.Prelude.{◌≡◌, ◌≤◌, length, IfErr};
ghost use Rattle.roll.specs.Input.{Fits};

use std::env::Env;
use std::fs::File;
use std::io::{self, Read};
use std::rt::Files;

// A path has fewer bytes.
const PATH: usize = 4096;

// Reads until the room is full or the input ends, however few bytes come at a time, and answers how many came. Where a read fails, that
// is the answer, and of the room it is told only that it is as long as before.
pub fn read(from: &mut impl Read, room: &mut [u8]) -> io::Result<usize>
    ensures read { Fits result room.new }
    ensures failed { IfErr result (λ e. length room.new ≡ length room.old) }
{
    let mut n = 0;
    while n < room.len() {
        let more = from.read(&mut room[n..])?;
        if more == 0 {
            break;
        }
        n += more;
    }
    Ok(n)
}

// Reads the table that the first argument names. One that is not named, cannot be opened or cannot be read counts as empty. The library
// opens no path that is not UTF-8.
pub fn table(rt: &(impl Env + Files), room: &mut [u8]) -> usize
    ensures { result ≤ length room.new }
{
    let mut path = [0u8; PATH];
    let Ok(named) = rt.arg(1, &mut path) else {
        return 0;
    };
    let Ok(path) = str::from_utf8(&path[..named]) else {
        return 0;
    };
    let Ok(mut file) = File::open(rt, path) else {
        return 0;
    };
    let Ok(n) = read(&mut file, room) else {
        return 0;
    };
    n
}
