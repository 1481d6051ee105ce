// Runs trials: a request on each line of standard input, its answer on a line of standard output.
// Its file stdin has trials of document 01, its file stdout their answers, worked out by hand from the paper.
#![tactic(auto)]

mod hex;
mod print;
mod requests;
mod words;

ghost use Rattle.std.specs.Prelude.{◌≡◌, ◌≤◌, length, IfOk, IfErr};
ghost use Rattle.trials.specs.Lines.{line_limit, Fits};

use std::io::{self, Read};

// The longest line has so many bytes.
const ROOM: usize = 65536;

// What stands next in the input: a line of so many bytes, the end, or a line that is longer than the room.
#[derive(Clone, Copy)]
enum Line {
    Bytes(usize),
    End,
    TooLong,
}

fn main(rt: HostRuntime) -> io::Result<()> {
    let mut room = [0u8; ROOM];
    answer_lines(&rt, &mut rt.reader(), &mut room)
}

// Answers line by line. A proved loop has to end, and nothing says that an input does: so the lines are counted, up to a number that no
// run reaches.
fn answer_lines(rt: &impl Print, input: &mut impl Read, room: &mut [u8]) -> io::Result<()>
    requires { length room.old ≤ line_limit }
{
    let mut left = u64::MAX;
    while 0 < left && answer_next(rt, input, room)? {
        left -= 1;
    }
    Ok(())
}

// Reads a line and answers it. False at the end of the input, and at a line that is longer than the room.
fn answer_next(rt: &impl Print, input: &mut impl Read, room: &mut [u8]) -> io::Result<bool>
    requires { length room.old ≤ line_limit }
{
    match read_line(input, room)? {
        Line::Bytes(n) => {
            requests::answer(rt, &room[..n])?;
            Ok(true)
        }
        Line::End => Ok(false),
        Line::TooLong => {
            print::line(rt, "line too long")?;
            Ok(false)
        }
    }
}

// Puts the line that stands next in the input, without its LF, at the front of the room. The last one may lack its LF. Where a read
// fails, that is the answer, and of the room it is told only that it is as long as before.
fn read_line(input: &mut impl Read, room: &mut [u8]) -> io::Result<Line>
    ensures line { IfOk result (λ line. Fits line room.new) }
    ensures failed { IfErr result (λ e. length room.new ≡ length room.old) }
{
    let mut n = 0;
    loop {
        let Some(byte) = read_byte(input)? else {
            if n == 0 {
                return Ok(Line::End);
            }
            return Ok(Line::Bytes(n));
        };
        if byte == b'\n' {
            return Ok(Line::Bytes(n));
        }
        if n == room.len() {
            return Ok(Line::TooLong);
        }
        room[n] = byte;
        n += 1;
    }
}

// The next byte of the input, if it has not ended.
fn read_byte(input: &mut impl Read) -> io::Result<Option<u8>> {
    let mut byte = [0u8; 1];
    if input.read(&mut byte)? == 0 {
        return Ok(None);
    }
    Ok(Some(byte[0]))
}
