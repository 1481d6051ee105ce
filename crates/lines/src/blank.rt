// Blank lines, and the tabs in front of a marker or an annotation.
// Document 01, "The grammar", Lines.
ghost use Rattle.std.specs.Prelude.{◌≡◌, length, drop, ◌≤◌};
ghost use Rattle.paper.specs.Reading.{is_blank_line, blank_lines, tabs_only};
ghost use Rattle.lines.specs.Parts.{reached, passed, blanks_at_end};

use crate::part::line_rest;
use paper::{Refusal, Refused};
use text::classes::is_line_end;
use text::parts::starts_with;
use text::runs::{self, Blank};

// Whether a whole line of spaces and tabs stands at `at`.
pub fn is_blank_line(s: &[u8], at: usize) -> bool
    requires { at ≤ length s.now }
    ensures { result ≡ is_blank_line (drop at s.now) }
{
    let end = runs::end::<Blank>(s, at);
    s.get(end).is_some_and(|b| is_line_end(*b))
}

// Past the blank lines that stand at `at`.
pub fn blank_lines(s: &[u8], at: usize) -> Result<usize, Refused>
    requires { at ≤ length s.now }
    ensures { reached result ≡ passed s.now (blank_lines (drop at s.now)) }
{
    let mut i = at;
    while is_blank_line(s, i) {
        i = line_rest(s, i)?;
    }
    Ok(i)
}

// Past the tabs of a line on which a marker or an annotation is due, and a blank line may stand too.
// A space there could only have begun a blank line, so what stands behind the blanks is at fault.
pub fn tabs_only(s: &[u8], at: usize) -> Result<usize, Refused>
    requires { at ≤ length s.now }
    ensures { reached result ≡ passed s.now (tabs_only (drop at s.now)) }
{
    let mark = runs::end::<Blank>(s, at);
    if mark == s.len() {
        return Err(Refusal::Cut.at(s.len()));
    }
    let tabs = runs::tab_end(s, at);
    if starts_with(s, tabs, b" ") {
        return Err(Refusal::Due.at(mark));
    }
    Ok(tabs)
}

// Past the blanks that the end of input cuts: nothing else may stand behind the root's last blank line.
pub fn last_blanks(s: &[u8], at: usize) -> Result<usize, Refused>
    requires { at ≤ length s.now }
    ensures { reached result ≡ passed s.now (blanks_at_end (drop at s.now)) }
{
    let end = runs::end::<Blank>(s, at);
    if end < s.len() {
        return Err(Refusal::Due.at(end));
    }
    Ok(end)
}
