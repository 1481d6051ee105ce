// The mode table: whether it is in order, and what it says of a Concept's name.
// Document 01, "The mode table", and refusal 1.
#![tactic(auto)]

pub mod index;

ghost use Rattle.std.specs.Prelude.{◌≡◌, ◌≤◌, length, drop};
ghost use Rattle.paper.specs.Modes.{mode_of};
ghost use Rattle.modes.specs.Promises.{ReadsTable};
ghost use Rattle.modes.specs.Table.{name_at, one, told_name, told_of, modes_of};
ghost use Rattle.modes.specs.Index.{Empty, Due, ReadsSection, Indexed, Indexed-prop, ReadsInto};

use index::{CELLS, Index};
use paper::{Accepted, Answer, Mode, Refusal, Refused};

// A section has at most so many names.
const SECTION_LIMIT: usize = 64;

// Reads a table: an acceptance has its length and the names of both sections.
pub fn read(table: &[u8]) -> Answer
    ensures { ReadsTable table.now result }
{
    let mut index = [0; CELLS];
    read_into(table, &mut index)
}

// Reads a table as `read` does, and lists its names in an index that is empty.
pub fn read_into(table: &[u8], index: &mut Index) -> Answer
    requires { Empty index.old }
    ensures { ReadsInto table.now result index.new }
{
    let first = read_section(table, 0, 0, index)?;
    let second = read_section(table, first.place, first.count, index)?;
    if second.place < table.len() {
        return Err(Refusal::Table.at(second.place));
    }
    Ok(Accepted {
        place: second.place,
        count: first.count + second.count,
    })
}

// A mode table that is in order, with the index of its names.
#[derive(Clone, Copy)]
pub struct Modes<'a> {
    pub table: &'a [u8],
    pub index: &'a Index,
    pub ghost indexed: { Indexed table.now index.now } by { Indexed-prop table.now index.now },
}

impl Modes<'_> {
    // What the table says of a name. The first names are in children mode, and the table's first byte says how many they are.
    pub fn mode_of(&self, name: &[u8]) -> Mode
        ensures { result ≡ mode_of (modes_of self.now.table.now) name.now }
    {
        match index::find(self.table, self.index, index::key(name), name) {
            None => Mode::Absent,
            Some(number) if number <= self.table[0] as usize => Mode::Children,
            Some(_) => Mode::Content,
        }
    }
}

// Reads the section at `at`, behind the first `earlier` names of the table, and lists its names in the index; none of them may be listed
// already. An acceptance has the place past the section and how many names it has.
fn read_section(table: &[u8], at: usize, earlier: usize, index: &mut Index) -> Answer
    requires { Due table.now at earlier index.old }
    ensures { ReadsSection table.now at earlier result index.new }
{
    let Some(&count) = table.get(at) else {
        return Err(Refusal::Table.at(at));
    };
    let count = count as usize;
    if SECTION_LIMIT < count {
        return Err(Refusal::Table.at(at));
    }
    let mut place = at + 1;
    for i in 0..count {
        let end = read_name(table, place)?;
        let letters = place + 1;
        let name = &table[letters..end];
        let key = index::key(name);
        if index::find(table, index, key, name).is_some() {
            return Err(Refusal::Table.at(letters));
        }
        index::add(index, earlier + i + 1, key, place);
        place = end;
    }
    Ok(Accepted { place, count })
}

// Reads the name whose length byte is at `at`, by itself, and answers the place past it.
fn read_name(table: &[u8], at: usize) -> Result<usize, Refused>
    requires { at ≤ length table.now }
    ensures { told_name result ≡ told_of one table.now (name_at (drop at table.now)) }
{
    let Some(&size) = table.get(at) else {
        return Err(Refusal::Table.at(at));
    };
    let size = size as usize;
    if size == 0 || names::LIMIT < size {
        return Err(Refusal::Table.at(at));
    }
    let letters = at + 1;
    // Not by a `get`: the compiler would no longer see that the letters are few, and take ten instructions more for each name.
    if table.len() - letters < size {
        return Err(Refusal::Table.at(table.len()));
    }
    let end = letters + size;
    if !names::is_concept_name(&table[letters..end]) {
        return Err(Refusal::Table.at(letters));
    }
    Ok(end)
}
