// Values that hold no items, by their first byte: strings, characters, backticks, times and words.
// Document 01, "The grammar", Values; document 02, Two.
#![tactic(auto)]

pub mod escapes;
mod iris;
pub mod judged;
mod numbers;
pub mod plain;
mod quoted;
pub mod words;

ghost use Rattle.std.specs.Prelude.{◌≤◌, ◌<◌, length};
ghost use Rattle.paper.specs.Values.{leaf_form};
ghost use Rattle.paper.specs.ReadingValues.{word_leaf, leaf_of};
ghost use Rattle.leaves.specs.Shown.{JudgesAt, time_of};
ghost use Rattle.leaves.specs.Kinds.{enders_of};

use crate::judged::Judged;
use crate::words::Around;
use paper::forms::Form;
use paper::{Refusal, Refused};
use text::parts::find;
use times::kinds::kind_of;

// Reads the value that stands at `at` and begins with no bracket.
pub fn read_leaf(s: &[u8], at: usize, around: Around) -> Result<Judged, Refused>
    ensures { JudgesAt leaf_form (leaf_of (enders_of around)) s.now at result }
{
    match s.get(at) {
        None => Err(Refusal::Cut.at(s.len())),
        Some(b'"') => quoted::string_end(s, at),
        Some(b'\'') => quoted::character_end(s, at),
        Some(b'`') => quoted::backtick_end(s, at),
        Some(b'{') => read_time(s, at),
        Some(_) => read_word(s, at, around),
    }
}

// Reads the time whose brace stands at `at`; it is judged only where a brace closes it.
fn read_time(s: &[u8], at: usize) -> Result<Judged, Refused>
    requires { at < length s.now }
    ensures { JudgesAt leaf_form time_of s.now at result }
{
    let start = at + 1;
    let end = find(s, start, b"}");
    if end == s.len() {
        return Err(Refusal::Cut.at(s.len()));
    }
    if kind_of(&s[start..end]).is_none() {
        return Err(Refusal::Value.at(at));
    }
    Ok(Judged {
        form: Form::Time,
        end: end + 1,
    })
}

// Reads the word that stands at `at`; it is judged only where something ends it.
fn read_word(s: &[u8], at: usize, around: Around) -> Result<Judged, Refused>
    requires { at ≤ length s.now }
    ensures { JudgesAt leaf_form (word_leaf (enders_of around)) s.now at result }
{
    let end = words::word_end(s, at, around);
    if end == s.len() {
        return Err(Refusal::Cut.at(s.len()));
    }
    let Some(form) = words::word_form(&s[at..end]) else {
        return Err(Refusal::Value.at(at));
    };
    Ok(Judged { form, end })
}
