// Labels: what stands before an item, a map's key with its colon and white space, or nothing.
// Document 02, Five; 001 §21. A bad key is told at its start, whatever its fault, and a missing colon where it was due.
ghost use Rattle.std.specs.Prelude.{◌≡◌, ◌≤◌, ◌<◌, length};
ghost use Rattle.paper.specs.Forms.{number_of_form};
ghost use Rattle.paper.specs.Values.{is_key_form, Key};
ghost use Rattle.paper.specs.ReadingValues.{key_of};
ghost use Rattle.leaves.specs.Kinds.{enders_of};
ghost use Rattle.leaves.specs.Shown.{EndsAt};
ghost use Rattle.values.specs.Labels.{word_key, bare_end, no_key, LabelsAt, ColonAt};

use leaves::words::Around;
use leaves::{read_leaf, words};
use paper::brackets::Bracket;
use paper::forms::Form;
use paper::{Refusal, Refused};
use text::parts::find;
use text::runs::{Name, White};
use text::{classes, runs};

// Where the key ends and where the value is due, which are one place where there is no key.
#[derive(Clone, Copy)]
pub struct Labelled {
    pub key: usize,
    pub value: usize,
}

// Reads what stands before the item of this bracket that is due at `at`. Most items have no key.
pub fn read_label(s: &[u8], at: usize, kind: Bracket) -> Result<Labelled, Refused>
    requires { at ≤ length s.now }
    ensures { LabelsAt kind s.now at result }
{
    if !kind.is_keyed() {
        return Ok(Labelled { key: at, value: at });
    }
    let end = read_key(s, at)?;
    read_colon(s, end)
}

// Reads the key that is due at `at`: a string or a character by its quote, else a word.
fn read_key(s: &[u8], at: usize) -> Result<usize, Refused>
    ensures { EndsAt (key_of (enders_of Around.Key)) s.now at result }
{
    let Some(&first) = s.get(at) else {
        return Err(Refusal::Cut.at(s.len()));
    };
    match first {
        b'"' | b'\'' => match read_leaf(s, at, Around::Key) {
            Ok(read) => Ok(read.end),
            Err(refused) => match refused.refusal {
                Refusal::Value => Err(Refusal::Value.at(at)),
                _ => Err(refused),
            },
        },
        _ => read_key_word(s, at),
    }
}

// Reads the key at `at` that is a word: a bare name, or what is read as a value of a form that a key may have. It is judged only where something ends it.
fn read_key_word(s: &[u8], at: usize) -> Result<usize, Refused>
    requires { at < length s.now }
    ensures { EndsAt (word_key (enders_of Around.Key)) s.now at result }
{
    if let Some(end) = bare_end(s, at) {
        return Ok(end);
    }
    if classes::is_one_of(s[at], b"\"'`{") {
        return Err(no_key(s, at));
    }
    let read = read_leaf(s, at, Around::Key)?;
    if !is_key_form(read.form) {
        return Err(Refusal::Value.at(at));
    }
    Ok(read.end)
}

// Where the bare name ends that is the whole word at `at`, if it is one: a lower case letter, then letters and digits.
fn bare_end(s: &[u8], at: usize) -> Option<usize>
    requires { at < length s.now }
    ensures { result ≡ bare_end (enders_of Around.Key) s.now at }
{
    if !classes::is_lower(s[at]) {
        return None;
    }
    let end = runs::end::<Name>(s, at);
    (end < s.len() && words::ends_word(s, end, Around::Key)).then_some(end)
}

// Refuses the word at `at`, of a kind that no key has: bad where something ends it, and else cut.
fn no_key(s: &[u8], at: usize) -> Refused
    requires { at ≤ length s.now }
    ensures { result ≡ no_key (enders_of Around.Key) s.now at }
{
    if find(s, at, b" \t\n\r>:,]") == s.len() {
        return Refusal::Cut.at(s.len());
    }
    Refusal::Value.at(at)
}

// Whether a word of this form may be a key: an integer or a "$" token.
fn is_key_form(form: Form) -> bool
    ensures { result ≡ is_key_form (number_of_form form) }
{
    matches!(form, Form::Integer | Form::Pascal)
}

// Reads the colon that is due behind a key, and white space.
fn read_colon(s: &[u8], at: usize) -> Result<Labelled, Refused>
    ensures { (key : Key) → ColonAt key s.now at result }
{
    match s.get(at) {
        None => Err(Refusal::Cut.at(s.len())),
        Some(b':') => Ok(Labelled {
            key: at,
            value: runs::end::<White>(s, at + 1),
        }),
        Some(_) => Err(Refusal::Value.at(at)),
    }
}
