// A sheet whose entries are laid out in cells: its entries, and the parts of it that they name.
// Document 01, "Entries".
ghost use Rattle.std.specs.Prelude.{◌≡◌, ◌-◌, ◌/◌, ◌<◌, true, take, drop, eqb, ltb, length};
ghost use Rattle.paper.specs.Kinds.{number_of_kind};
ghost use Rattle.paper.specs.Entries.{entry_cells};
ghost use Rattle.entries.specs.Laid.{entry_of, entry_at, kind_at};

use entries::{CELLS, Entry, get};
use paper::kinds::Kind;
use quoting::spans::part;

// The bytes of a sheet, and the cells of its entries.
#[derive(Clone, Copy)]
pub struct Laid<'a> {
    pub s: &'a [u8],
    pub cells: &'a [u32],
}

impl<'a> Laid<'a> {
    // Whether there is an entry n.
    pub fn has(self, n: usize) -> bool
        ensures { result ≡ ltb n (length self.entry.cells.now / entry_cells) }
    {
        n < self.cells.len() / CELLS
    }

    // Entry n, or one of kind 0 where there is none.
    pub fn at(self, n: usize) -> Entry
        ensures { entry_of result ≡ entry_at self.entry.cells.now n }
    {
        get(self.cells, n)
    }

    // Whether entry n is of this kind.
    pub fn is_of(self, n: usize, kind: Kind) -> bool
        ensures same { result ≡ eqb (kind_at self.entry.cells.now n) (number_of_kind kind) }
        ensures inside { result ≡ true → n < length self.entry.cells.now / entry_cells }
    {
        self.at(n).kind == kind.number()
    }

    // The name that an entry has in the sheet; of a map's item it is the key.
    pub fn name(self, own: Entry) -> &'a [u8]
        ensures { result.now
            ≡ take (own.name_end - own.name_start) (drop own.name_start self.entry.s.now) }
    {
        part(self.s, own.name_start as usize, own.name_end as usize)
    }

    // The spelling that an entry's span names.
    pub fn spelling(self, own: Entry) -> &'a [u8]
        ensures { result.now ≡ take (own.end - own.start) (drop own.start self.entry.s.now) }
    {
        part(self.s, own.start as usize, own.end as usize)
    }
}
