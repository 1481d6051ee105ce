// The index of a table's names, by which one is found without a walk through the table.
// Document 02, Three. It is made once, while the table is read, and passed down to those who look names up.
ghost use Rattle.std.specs.Prelude.{◌≡◌, ◌^◌, ◌≤◌, ◌<◌};
ghost use Rattle.modes.specs.Index.{key_count, name_count, key_of, added, Listing, FindsNumber};

use crate::SECTION_LIMIT;
use text::parts;

// There are so many keys.
const KEYS: usize = 32;

// A table has at most so many names. They are numbered from 1 on, in the order of the table.
const NAMES: usize = 2 * SECTION_LIMIT;

// The cell of a key has the number of the latest name with this key, or 0. Behind the keys each name has a cell at its number: it has the
// number of the latest name before it with the same key, or 0.
const EARLIER: usize = KEYS;

// Behind these each name has another cell, again at its number: the place of its length byte in the table.
const PLACES: usize = EARLIER + NAMES + 1;

// So many cells has an index. It is empty where all are zero.
pub const CELLS: usize = PLACES + NAMES + 1;

pub type Index = [u16; CELLS];

// The key of a name: its first and its last letter, added up.
pub fn key(name: &[u8]) -> usize
    ensures { (result ≡ key_of name.now) × (result < key_count) }
{
    let Some(&last) = name.last() else {
        return 0;
    };
    (name[0] as usize + last as usize) % KEYS
}

// The number of the name that has this key, if the index lists it. Few names share a key, and only these are compared.
pub fn find(table: &[u8], index: &Index, key: usize, name: &[u8]) -> Option<usize>
    requires { Listing table.now index.now × (key ≡ key_of name.now) }
    ensures { FindsNumber table.now index.now name.now result }
{
    let mut number = index[key] as usize;
    while 0 < number {
        let place = index[PLACES + number] as usize;
        let letters = place + 1;
        let end = letters + table[place] as usize;
        if parts::same(&table[letters..end], name) {
            return Some(number);
        }
        number = index[EARLIER + number] as usize;
    }
    None
}

// Lists one name more, under the next number and its key. Its length byte is at `place`.
pub fn add(index: &mut Index, number: usize, key: usize, place: usize)
    requires { (number ≤ name_count) × (key < key_count) × (place < 2 ^ 16) }
    ensures { index.new ≡ added index.old number key place }
{
    index[EARLIER + number] = index[key];
    index[PLACES + number] = place as u16;
    index[key] = number as u16;
}
