// Content: lines of text one tab deeper than their marker, up to the closing line.
// Document 01, "The grammar", Content; refusals 7, 9 and 11.
ghost use Rattle.std.specs.Prelude.{◌≡◌, ◌≤◌, length, drop};
ghost use Rattle.paper.specs.Bytes.{is_blank, behind};
ghost use Rattle.paper.specs.Reading.{at_line_end};
ghost use Rattle.entries.specs.Laid.{Fits};
ghost use Rattle.lines.specs.Parts.{In, Tabbed, Closes, PassesLine, MakesContent};

use crate::marks::{CLOSING, END};
use crate::part::{Part, enter, line_end, line_rest};
use entries::Slot;
use paper::kinds::Kind;
use paper::{Refusal, Refused};
use text::classes::is_line_end;
use text::runs::{self, Blank};

// Where the closing line at `at`, whose tabs end at `mark`, ends behind its ">", or none where the line does not close Content:
// exactly so many tabs, the closing marker of the name, and blanks.
fn closing_end(s: &[u8], at: usize, mark: usize, tabs: usize, name: &[u8]) -> Option<usize>
    requires { Tabbed s.now at mark }
    ensures { Closes s.now at tabs name.now result }
{
    if mark - at != tabs {
        return None;
    }
    let rest = s[mark..].strip_prefix(&CLOSING)?;
    let rest = rest.strip_prefix(name)?;
    let rest = rest.strip_prefix(&END)?;
    let end = s.len() - rest.len();
    is_over(s, end).then_some(end)
}

// Whether only blanks stand from `at` on before the end of the line or of the input.
fn is_over(s: &[u8], at: usize) -> bool
    requires { at ≤ length s.now }
    ensures { result ≡ at_line_end (behind is_blank (drop at s.now)) }
{
    let end = runs::end::<Blank>(s, at);
    s.get(end).is_none_or(|b| is_line_end(*b))
}

// Past the line at `at`, whose tabs end at `mark` and which does not close Content: one of more tabs than the marker has
// goes to its end, whatever stands there, and any other must be blank.
fn read_line(s: &[u8], at: usize, mark: usize, tabs: usize) -> Result<usize, Refused>
    requires { Tabbed s.now at mark }
    ensures { PassesLine s.now at tabs result }
{
    if mark - at <= tabs {
        return line_rest(s, at);
    }
    line_end(s, runs::text_end(s, mark))
}

// Reads the Content of a block from behind its marker's ">" on, with its closing line up to its ">", and enters it.
// The marker stands on a line of so many tabs, and its name from `from` to `to`.
pub fn read_content(
    s: &[u8],
    at: usize,
    tabs: usize,
    from: usize,
    to: usize,
    cells: &mut [u32],
    slot: Slot,
) -> Result<Part, Refused>
    requires { In s.now at × Fits cells.old slot × (from ≤ to) × (to ≤ length s.now) }
    ensures { MakesContent s.now at tabs from to cells.old slot result cells.new }
{
    let start = line_rest(s, at)?;
    if slot.is_full() {
        return Err(Refusal::NoEntryLeft.at(start));
    }
    let name = &s[from..to];
    let mut i = start;
    let end = loop {
        let mark = runs::tab_end(s, i);
        if let Some(end) = closing_end(s, i, mark, tabs, name) {
            break end;
        }
        i = read_line(s, i, mark, tabs)?;
    };
    enter(cells, slot, Kind::Content, start, i);
    Ok(Part {
        end,
        made: 1,
        own: 1,
    })
}
