// Values between quotes: strings, characters and backticks.
// Document 01, "The grammar", Values; document 02, Four: the place of a 6.
ghost use Rattle.std.specs.Prelude.{List, ◌+◌, ◌<◌, length};
ghost use Rattle.paper.specs.Values.{Piece, leaf_form};
ghost use Rattle.paper.specs.ReadingValues.{close_character, character_of};
ghost use Rattle.leaves.specs.Shown.{JudgesAt, string_of, backtick_of};

use crate::escapes::escape_end;
use crate::judged::Judged;
use crate::plain::plain_end;
use paper::forms::Form;
use paper::{Refusal, Refused};
use text::utf8::{Cursor, Step};

// Reads the string whose quote stands at `at`, up to its closing quote. Each turn goes on behind all that it read, so no `for` steps through it.
pub fn string_end(s: &[u8], at: usize) -> Result<Judged, Refused>
    requires { at < length s.now }
    ensures { JudgesAt leaf_form string_of s.now (at + 1) result }
{
    let mut i = plain_end(s, at + 1, b'"');
    while i < s.len() {
        match s[i] {
            b'"' => {
                return Ok(Judged {
                    form: Form::String,
                    end: i + 1,
                });
            }
            b'\\' => {
                let end = escape_end(s, i, b'"')?;
                i = plain_end(s, end, b'"');
            }
            b'\n' | b'\r' => {
                return Err(Refusal::Value.at(i));
            }
            _ => {
                i = plain_end(s, i + 1, b'"');
            }
        }
    }
    Err(Refusal::Cut.at(s.len()))
}

// Reads the character whose quote stands at `at`: one scalar value or one escape, and the closing quote.
pub fn character_end(s: &[u8], at: usize) -> Result<Judged, Refused>
    requires { at < length s.now }
    ensures { JudgesAt leaf_form character_of s.now (at + 1) result }
{
    let first = at + 1;
    match s.get(first) {
        None => Err(Refusal::Cut.at(s.len())),
        Some(b'\'' | b'\n' | b'\r') => Err(Refusal::Value.at(first)),
        Some(b'\\') => closing_quote(s, escape_end(s, first, b'\'')?),
        Some(_) => match Cursor::new(first).step(s) {
            Step::Scalar(_, next) => closing_quote(s, next.at),
            _ => Err(Refusal::Value.at(first)),
        },
    }
}

// Reads the closing quote of a character, due at `at`.
fn closing_quote(s: &[u8], at: usize) -> Result<Judged, Refused>
    ensures { (ps : List Piece) → JudgesAt leaf_form (close_character ps) s.now at result }
{
    match s.get(at) {
        None => Err(Refusal::Cut.at(s.len())),
        Some(b'\'') => Ok(Judged {
            form: Form::Character,
            end: at + 1,
        }),
        Some(_) => Err(Refusal::Value.at(at)),
    }
}

// Reads the backtick string whose backtick stands at `at`, up to its closing one: the first that no backslash stands before.
pub fn backtick_end(s: &[u8], at: usize) -> Result<Judged, Refused>
    requires { at < length s.now }
    ensures { JudgesAt leaf_form backtick_of s.now (at + 1) result }
{
    let mut marked = false;
    for i in at + 1..s.len() {
        if s[i] == b'`' && !marked {
            return Ok(Judged {
                form: Form::String,
                end: i + 1,
            });
        }
        marked = s[i] == b'\\';
    }
    Err(Refusal::Cut.at(s.len()))
}
