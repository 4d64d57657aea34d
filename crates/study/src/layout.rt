ghost use Rattle.std.specs.Prelude.{◌≡◌, ◌+◌, ◌*◌, ◌^◌, ◌<◌, ◌≤◌};
ghost use Rattle.places.specs.Parts.{start};
ghost use Rattle.tables.specs.Calls.{short};
ghost use Rattle.tables.specs.Lent.{seen};
ghost use Rattle.tables.specs.Tables.{row, mark_at};
ghost use Rattle.study.specs.Limits.{IsProcessor};

use super::setup::Setup;
use setmap::SetMap;
use tables::SeenTables;

impl<M: SetMap> Setup<M> {
    // How many counters one processor has.
    pub(super) fn row_length(&self) -> usize
        ensures value { result ≡ row self.now.settings }
        ensures small { result ≤ 547 }
    {
        2 * self.settings.levels as usize * self.settings.ways as usize + 3
    }

    // Where the n-long part of processor p begins.
    pub(super) fn part_start(&self, n: usize, p: u32) -> usize
        requires { (IsProcessor self.now.settings p) × (n ≤ 2 ^ 20) }
        ensures value { result ≡ start n p }
        ensures within { result + n ≤ self.now.settings.processors * n }
        ensures small { result ≤ 2 ^ 26 }
    {
        (p as usize - 1) * n
    }

    // Where processor p's mark of the block at a place of the known ones stands.
    pub(super) fn mark_at(&self, p: u32, place: usize) -> usize
        requires { (IsProcessor self.now.settings p) × (place < 2 ^ 32) }
        ensures { result ≡ mark_at self.now.settings p place }
    {
        self.part_start(self.settings.blocks as usize, p) + place
    }

    // Whether a table is too short: a test and no refusal, since a feed tells it as a fault and the other calls as a refusal.
    pub(super) fn is_short(&self, tables: SeenTables<'_>) -> bool
        ensures { result ≡ short self.now.settings (seen tables.entry) }
    {
        let s = self.settings;
        let processors = s.processors as usize;
        tables.entries.len() < processors * s.entries as usize
            || tables.known.len() < s.blocks as usize
            || tables.marks.len() < processors * s.blocks as usize
            || tables.counters.len() < processors * self.row_length()
    }
}
