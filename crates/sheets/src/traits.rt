// Traits: name, "=" and value, each after white space, read and entered with the items of their values.
// Document 01, "The grammar", Markers and Values, and "Entries", and document 02, Six; refusals 4, 6, 7, 9, 10, 11 and 18.
ghost use Rattle.std.specs.Prelude.{◌≡◌, ◌+◌, ◌≤◌, ◌<◌, length};
ghost use Rattle.entries.specs.Laid.{Fits};
ghost use Rattle.lines.specs.Parts.{In};
ghost use Rattle.earlier.specs.Earlier.{taken_in};
ghost use Rattle.sheets.specs.Traits.{MakesValued, MakesNamed, MakesTraits, NamesBefore, NamesOnward};

use earlier::seek;
use entries::{Entry, Slot, put};
use lines::part::{Part, Whose, byte_due, judge_name};
use names::run_at;
use paper::kinds::Kind;
use paper::{Refusal, Refused};
use text::classes::is_one_of;
use text::runs::{self, White};
use values::entering::enter_whole;
use values::reading::read_whole;

// Reads the value behind the "=" that stands at `to`, whole before anything is entered; then enters the trait, whose name
// stands from `from` to `to`, and the items of its value.
fn enter_trait(
    s: &[u8],
    from: usize,
    to: usize,
    cells: &mut [u32],
    slot: Slot,
) -> Result<Part, Refused>
    requires { In s.now (to + 1) × Fits cells.old slot × (from ≤ to) }
    ensures { MakesValued s.now from to cells.old slot result cells.new }
{
    let at = to + 1;
    let value = read_whole(s, at)?;
    if slot.is_full() {
        return Err(Refusal::NoEntryLeft.at(from));
    }
    let entered = enter_whole(s, at, Ok(value), cells, slot.under())?;
    put(
        cells,
        slot.next,
        Entry {
            kind: Kind::Trait.number(),
            form: entered.form.number(),
            parent: slot.parent,
            count: entered.own as u32,
            name_start: from as u32,
            name_end: to as u32,
            start: at as u32,
            end: entered.end as u32,
        },
    );
    Ok(Part {
        end: entered.end,
        made: 1 + entered.made,
        own: 1,
    })
}

// Reads the trait whose name stands at `at`, and enters it. No earlier trait of its marker may have its name. These stand from `first` on, and
// the index `names` lists them, and then this one too.
fn read_trait(
    s: &[u8],
    first: usize,
    at: usize,
    cells: &mut [u32],
    slot: Slot,
    names: &mut [u16],
) -> Result<Part, Refused>
    requires { In s.now at × Fits cells.old slot × NamesBefore s.now (at + 1) names.old
        × (first ≤ at) × (taken_in first names.old < length names.old) }
    ensures { MakesNamed s.now first at cells.old slot names.old result cells.new names.new }
{
    let run = run_at(s, at);
    let to = judge_name(s, at, run, Whose::Traits)?;
    let Some(cell) = seek(s, first, names, run.key, &s[at..to]) else {
        return Err(Refusal::TraitTwice.at(at));
    };
    names[cell] = at as u16;
    byte_due(s, to, b'=')?;
    enter_trait(s, at, to, cells, slot)
}

// Reads the traits of a marker, which stand at `at` behind its name, each after white space, up to where the marker's end is due, and enters
// them. The index `names` has starts before `at` alone, which are those of earlier markers' traits.
pub fn read_traits(
    s: &[u8],
    at: usize,
    cells: &mut [u32],
    slot: Slot,
    names: &mut [u16],
) -> Result<Part, Refused>
    requires { In s.now at × Fits cells.old slot × NamesBefore s.now at names.old }
    ensures { MakesTraits s.now at cells.old slot result cells.new
        × NamesOnward s.now result names.new }
{
    let mut i = at;
    let mut made = 0;
    let mut own = 0;
    loop {
        let mark = runs::end::<White>(s, i);
        let Some(&b) = s.get(mark) else {
            return Err(Refusal::Cut.at(s.len()));
        };
        if is_one_of(b, b">/") {
            return Ok(Part { end: i, made, own });
        }
        if mark == i {
            return Err(Refusal::Due.at(mark));
        }
        let one = read_trait(s, at, mark, cells, slot.after(made), names)?;
        i = one.end;
        made += one.made;
        own += 1;
    }
}
