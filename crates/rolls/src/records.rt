// Records: five cells each in the lent room.
// Document 01, "Rolls".
ghost use Rattle.std.specs.Prelude.{◌≡◌, [], ◌∷◌, suc, ◌*◌, ◌≤◌, length};
ghost use Rattle.paper.specs.Roll.{record_cells, roll_room};
ghost use Rattle.rolls.specs.Records.{record_in, lay_records};

use entries::lay;

// A record is so many cells, and a roll has at most so many sheets.
pub const CELLS: usize = 5;

const LIMIT: usize = 256;

#[derive(Clone, Copy)]
pub struct Record {
    pub start: u32,
    pub end: u32,
    pub number: u32,
    pub place: u32,
    pub entries: u32,
}

// How many records there is room for in so many cells.
pub fn room(lent: usize) -> usize
    ensures { result ≡ roll_room lent }
{
    (lent / CELLS).min(LIMIT)
}

// Writes record number `n`.
pub fn put(records: &mut [u32], n: usize, e: Record)
    requires { suc n * record_cells ≤ length records.old }
    ensures { records.new ≡ lay_records records.old n (record_in e ∷ []) }
{
    lay(records, n, [e.start, e.end, e.number, e.place, e.entries]);
}
