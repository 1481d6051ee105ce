// Entries: eight cells each in the lent room.
// Document 01, "Entries".
#![tactic(auto)]

ghost use Rattle.std.specs.Prelude.{◌≡◌, [], ◌∷◌, suc, ◌+◌, ◌-◌, ◌*◌, ◌^◌, ◌≤◌, ◌<◌, length, replicate, leb};
ghost use Rattle.std.proofs.lemmas.List.Edits.{sets};
ghost use Rattle.paper.specs.Entries.{entry_cells, unnamed};
ghost use Rattle.paper.specs.Reading.{room_of};
ghost use Rattle.entries.specs.Laid.{entry_of, entry_at, lay, slot_after, slot_under};

// An entry is so many cells, and a sheet has at most so many entries.
pub const CELLS: usize = 8;

pub const LIMIT: usize = 1024;

// The parent of what stands at the top.
pub const TOP: u32 = u32::MAX;

#[derive(Clone, Copy, Default)]
pub struct Entry {
    pub kind: u32,
    pub form: u32,
    pub parent: u32,
    pub count: u32,
    pub name_start: u32,
    pub name_end: u32,
    pub start: u32,
    pub end: u32,
}

// How many entries there is room for in so many cells.
pub fn room(lent: usize) -> usize
    ensures { result ≡ room_of lent }
{
    (lent / CELLS).min(LIMIT)
}

// An entry without a name.
pub fn nameless(kind: u32, form: u32, parent: u32, count: u32, start: u32, end: u32) -> Entry
    ensures { entry_of result ≡ unnamed kind form parent count start end }
{
    Entry {
        kind,
        form,
        parent,
        count,
        name_start: start,
        name_end: start,
        start,
        end,
    }
}

// Writes row number `n` of rows that take N cells each. It is written number by number: `copy_from_slice` would first ask whether the two
// overlap, which is five instructions more for each row.
pub fn lay<const N: usize>(cells: &mut [u32], n: usize, row: [u32; N])
    requires { suc n * N ≤ length cells.old }
    ensures { cells.new ≡ sets cells.old (n * N) row.entry }
{
    let at = n * N;
    for i in 0..N {
        cells[at + i] = row[i];
    }
}

// Writes entry number `n`.
pub fn put(cells: &mut [u32], n: usize, e: Entry)
    requires { suc n * entry_cells ≤ length cells.old }
    ensures { cells.new ≡ lay cells.old n (entry_of e ∷ []) }
{
    lay(
        cells,
        n,
        [
            e.kind,
            e.form,
            e.parent,
            e.count,
            e.name_start,
            e.name_end,
            e.start,
            e.end,
        ],
    );
}

// Entry number `n`, or one of kind 0 where it does not lie wholly in the cells.
pub fn get(cells: &[u32], n: usize) -> Entry
    ensures { entry_of result ≡ entry_at cells.now n }
{
    let (rows, _) = cells.as_chunks::<CELLS>();
    let Some(row) = rows.get(n) else {
        return Entry::default();
    };
    let [kind, form, parent, count, name_start, name_end, start, end] = *row;
    Entry {
        kind,
        form,
        parent,
        count,
        name_start,
        name_end,
        start,
        end,
    }
}

// Sets the cells from `at` on to zero.
pub fn zero_from(cells: &mut [u32], at: usize)
    requires { at ≤ length cells.old }
    ensures { cells.new ≡ sets cells.old at (replicate (length cells.old - at) 0) }
{
    cells[at..].fill(0);
}

// Where the next entry goes: its number, how many there is room for in all, and its parent.
#[derive(Clone, Copy)]
pub struct Slot {
    pub next: usize,
    pub room: usize,
    pub parent: u32,
}

impl Slot {
    // Whether no entry is left.
    pub fn is_full(self) -> bool
        ensures { result ≡ leb self.room self.next }
    {
        self.room <= self.next
    }

    // Behind so many entries more, with the same parent.
    pub fn after(self, made: usize) -> Slot
        requires { self.next + made < 2 ^ 63 }
        ensures { result ≡ slot_after self made }
    {
        Slot {
            next: self.next + made,
            ..self
        }
    }

    // Behind the next entry, for those that have it as their parent.
    pub fn under(self) -> Slot
        requires { self.next < 2 ^ 32 - 1 }
        ensures { result ≡ slot_under self }
    {
        Slot {
            next: self.next + 1,
            parent: self.next as u32,
            ..self
        }
    }
}
