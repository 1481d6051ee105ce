// What reading a part of a sheet answers, and the parts that stand everywhere: a byte that is due, a name, a line end.
// Document 01, "The grammar", Names and Lines; refusals 4, 7 and 9.
ghost use Rattle.std.specs.Prelude.{◌≡◌, ◌*◌, ◌≤◌, suc, [], ◌∷◌, length, drop};
ghost use Rattle.paper.specs.Entries.{entry_cells, unnamed};
ghost use Rattle.paper.specs.Kinds.{number_of_kind};
ghost use Rattle.paper.specs.Limits.{sheet_limit};
ghost use Rattle.paper.specs.Reading.{due, name, line_end, line_rest};
ghost use Rattle.entries.specs.Laid.{lay};
ghost use Rattle.names.specs.Runs.{Measures};
ghost use Rattle.lines.specs.Parts.{reached, passed, due_all, rule_of, rule_by};

use entries::{Slot, nameless, put};
use names::{Run, run_at};
use paper::kinds::Kind;
use paper::{Refusal, Refused, forms};
use text::classes::{is_lower, is_upper};
use text::parts::starts_with;
use text::runs::{self, Blank};

// A part that was read up to its end: how many entries it made, and how many of them name the part's Concept as parent.
#[derive(Clone, Copy)]
pub struct Part {
    pub end: usize,
    pub made: usize,
    pub own: usize,
}

// A part that makes no entry.
pub fn entryless(end: usize) -> Part
    ensures { result ≡ record { end = end; made = 0; own = 0 } }
{
    Part {
        end,
        made: 0,
        own: 0,
    }
}

// Enters an annotation or Content, which is one entry without a name and a form: its kind, and where it stands.
pub(crate) fn enter(cells: &mut [u32], slot: Slot, kind: Kind, start: usize, end: usize)
    requires { (suc slot.next * entry_cells ≤ length cells.old) × (start ≤ sheet_limit) × (end ≤ sheet_limit) }
    ensures { cells.new ≡ lay cells.old slot.next (unnamed (number_of_kind kind) 0 slot.parent 0 start end ∷ []) }
{
    let entry = nameless(
        kind.number(),
        forms::NONE,
        slot.parent,
        0,
        start as u32,
        end as u32,
    );
    put(cells, slot.next, entry);
}

// The byte is due at `at`. What reads a part that makes no entry answers the place behind it.
pub fn byte_due(s: &[u8], at: usize, b: u8) -> Result<usize, Refused>
    requires { at ≤ length s.now }
    ensures { reached result ≡ passed s.now (due b (drop at s.now)) }
{
    match s.get(at) {
        Some(&c) if c == b => Ok(at + 1),
        Some(_) => Err(Refusal::Due.at(at)),
        None => Err(Refusal::Cut.at(s.len())),
    }
}

// Fixed bytes are due at `at`. The first that is not there is at fault.
pub fn bytes_due(s: &[u8], at: usize, fixed: &[u8]) -> Result<usize, Refused>
    requires { at ≤ length s.now }
    ensures { reached result ≡ passed s.now (due_all fixed.now (drop at s.now)) }
{
    let mut place = at;
    for &b in fixed {
        place = byte_due(s, place, b)?;
    }
    Ok(place)
}

// Whose name is read: a Concept's, a trait's, or a closing marker's, which is only compared. Callers say whose, and the rule stands here
// alone: a test that each of them passes in its place is no plainer.
#[derive(Clone, Copy)]
pub enum Whose {
    Concepts,
    Traits,
    Closings,
}

// Reads a name, the whole run of letters and digits that stands at `at`. It is judged at its end.
pub fn name_end(s: &[u8], at: usize, whose: Whose) -> Result<usize, Refused>
    requires { at ≤ length s.now }
    ensures { reached result ≡ passed s.now (name (rule_of whose) (drop at s.now)) }
{
    judge_name(s, at, run_at(s, at), whose)
}

// The same where the run at `at` is measured already.
pub fn judge_name(s: &[u8], at: usize, run: Run, whose: Whose) -> Result<usize, Refused>
    requires { (at ≤ length s.now) × Measures s.now at run }
    ensures { reached result ≡ passed s.now (name (rule_of whose) (drop at s.now)) }
{
    let end = run.end;
    if end == s.len() {
        return Err(Refusal::Cut.at(s.len()));
    }
    if end == at {
        return Err(Refusal::Due.at(at));
    }
    if !keeps_rule(whose, s[at], run.keeps) {
        return Err(Refusal::Name.at(at));
    }
    Ok(end)
}

// Whether a name keeps the rule of whose name it is, by its first byte and whether it keeps all else.
fn keeps_rule(whose: Whose, first: u8, keeps: bool) -> bool
    ensures { result ≡ rule_by whose first keeps }
{
    match whose {
        Whose::Concepts => is_upper(first) && keeps,
        Whose::Traits => is_lower(first) && keeps,
        Whose::Closings => true,
    }
}

// The line end that is due at `at`.
pub fn line_end(s: &[u8], at: usize) -> Result<usize, Refused>
    requires { at ≤ length s.now }
    ensures { reached result ≡ passed s.now (line_end [] (drop at s.now)) }
{
    match s.get(at) {
        Some(b'\n') => Ok(at + 1),
        Some(_) if starts_with(s, at, b"\r\n") => Ok(at + 2),
        Some(_) => Err(Refusal::Due.at(at)),
        None => Err(Refusal::Cut.at(s.len())),
    }
}

// The blank rest of the line, with its line end.
pub fn line_rest(s: &[u8], at: usize) -> Result<usize, Refused>
    requires { at ≤ length s.now }
    ensures { reached result ≡ passed s.now (line_rest (drop at s.now)) }
{
    // Most lines end at once, and need no run of blanks.
    if starts_with(s, at, b"\n") {
        return Ok(at + 1);
    }
    let end = runs::end::<Blank>(s, at);
    line_end(s, end)
}
