ghost use Rattle.std.specs.Prelude.{◌≡◌};
ghost use Rattle.tables.specs.Lent.{lent, seen};

use super::Mark;
use stack::Entry;
use trace::Block;

// The tables of a study, lent to a call: stretches of entries, known blocks, marks and counters.
// Four slices for all processors, cut by offsets: the caller's memory, of fixed length, and nothing from the heap.
// Each call says by `same` that it leaves the slices that it was lent.
#[derive(Drop)]
pub struct LentTables<'a> {
    pub entries: &'a mut [Entry],
    pub known: &'a mut [Block],
    pub marks: &'a mut [Mark],
    pub counters: &'a mut [u32],
}

// The same tables, lent for a look: who only looks may have no more than this to lend, and Rust has no struct for both.
#[derive(Clone, Copy)]
pub struct SeenTables<'a> {
    pub entries: &'a [Entry],
    pub known: &'a [Block],
    pub marks: &'a [Mark],
    pub counters: &'a [u32],
}

impl LentTables<'_> {
    // The tables, for a look.
    pub fn look(&self) -> SeenTables<'_>
        ensures { seen result ≡ lent self.now }
    {
        SeenTables {
            entries: self.entries,
            known: self.known,
            marks: self.marks,
            counters: self.counters,
        }
    }
}
