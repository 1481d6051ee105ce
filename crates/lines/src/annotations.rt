// Annotations: "[" to the first unescaped "]", on one line, directly before a Concept.
// Document 01, "The grammar", Annotations and Lines; refusals 7, 9 and 11.
ghost use Rattle.std.specs.Prelude.{◌≡◌, ◌≤◌, length, drop};
ghost use Rattle.paper.specs.Reading.{text_of};
ghost use Rattle.entries.specs.Laid.{Fits};
ghost use Rattle.lines.specs.Parts.{reached, passed, In, MakesNote, MakesNotes};

use crate::part::{Part, enter, line_rest};
use entries::Slot;
use paper::kinds::Kind;
use paper::{Refusal, Refused};
use text::classes::{is_line_end, is_one_of};
use text::parts::starts_with;
use text::runs;

// Past the text of an annotation that stands at `at`, and its "]". Only "\]" and "\\" are escapes.
fn text_end(s: &[u8], at: usize) -> Result<usize, Refused>
    requires { at ≤ length s.now }
    ensures { reached result ≡ passed s.now (text_of (drop at s.now)) }
{
    // The place is counted here: a `for` with a flag for the backslash takes half as long again for each byte, and a range's `next` a tenth.
    let mut i = at;
    while i < s.len() {
        let b = s[i];
        if b == b']' {
            return Ok(i + 1);
        }
        if b == b'\\' {
            let Some(&next) = s.get(i + 1) else {
                return Err(Refusal::Cut.at(s.len()));
            };
            if !is_one_of(next, b"]\\") {
                return Err(Refusal::Due.at(i));
            }
            i += 2;
        } else {
            if is_line_end(b) {
                return Err(Refusal::Due.at(i));
            }
            i += 1;
        }
    }
    Err(Refusal::Cut.at(s.len()))
}

// Reads the annotation whose text stands at `at`, behind its "[", with the rest of its line, and enters it.
fn read_one(s: &[u8], at: usize, cells: &mut [u32], slot: Slot) -> Result<Part, Refused>
    requires { In s.now at × Fits cells.old slot }
    ensures { MakesNote s.now at cells.old slot result cells.new }
{
    let behind = text_end(s, at)?;
    if slot.is_full() {
        return Err(Refusal::NoEntryLeft.at(at));
    }
    let end = line_rest(s, behind)?;
    enter(cells, slot, Kind::Annotation, at, behind - 1);
    Ok(Part {
        end,
        made: 1,
        own: 1,
    })
}

// Reads the annotations that stand at `at`, each on a line of its own, and enters them.
pub fn read_all(s: &[u8], at: usize, cells: &mut [u32], slot: Slot) -> Result<Part, Refused>
    requires { In s.now at × Fits cells.old slot }
    ensures { MakesNotes s.now at cells.old slot result cells.new }
{
    let mut i = at;
    let mut made = 0;
    loop {
        let mark = runs::tab_end(s, i);
        if !starts_with(s, mark, b"[") {
            return Ok(Part {
                end: i,
                made,
                own: made,
            });
        }
        i = read_one(s, mark + 1, cells, slot.after(made))?.end;
        made += 1;
    }
}
