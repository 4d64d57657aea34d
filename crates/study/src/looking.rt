ghost use Rattle.std.specs.Prelude.{◌≡◌, ◌+◌, ◌≤◌, true, length, take};
ghost use Rattle.order.specs.Order.{InOrder};
ghost use Rattle.order.specs.Looks.{no_repeat};
ghost use Rattle.study.specs.Limits.{Long};
ghost use Rattle.study.specs.Steps.{RowsInOrder};
ghost use Rattle.tables.specs.Lent.{lent};

use super::setup::Setup;
use order::hints::Hints;
use order::known::no_repeat;
use order::rows::row_in_order;
use setmap::SetMap;
use tables::LentTables;
use trace::Block;

// Notes where each block stands.
fn note_all(hints: &mut Hints, known: &[Block]) {
    for (place, block) in known.iter().enumerate() {
        hints.note(*block, place);
    }
}

impl<M: SetMap> Setup<M> {
    // Whether each processor's entries and marks are in order, where the first n blocks are known, and distinct.
    // By offsets and a loop, as the definitions are written: chunks of both tables would have to be cut to the processors, zipped,
    // and shown to be these parts, which is longer.
    fn rows_in_order(&self, n: u32, hints: &mut Hints, tables: &LentTables<'_>) -> bool
        requires few { n ≤ self.now.settings.blocks }
        requires long { Long self.now.settings (lent tables.now) }
        requires distinct { no_repeat (take n tables.now.known.now) ≡ true }
        ensures { result ≡ true → RowsInOrder self.now.settings n (lent tables.now) self.now.settings.processors }
    {
        let wide = self.settings.entries as usize;
        let many = self.settings.blocks as usize;
        for p in 1..=self.settings.processors {
            let at = self.part_start(wide, p);
            let from = self.part_start(many, p);
            if !row_in_order(
                &tables.known[..n as usize],
                hints,
                &tables.entries[at..at + wide],
                &tables.marks[from..from + many],
            ) {
                return false;
            }
        }
        true
    }

    // Whether the tables are in order, where the first n blocks are known; the hints are then those of these blocks.
    // The hints are lent: a table of them handed back by value would be copied at each step on its way.
    pub(super) fn look_for_order(&self, n: u32, hints: &mut Hints, tables: &LentTables<'_>) -> bool
        requires few { n ≤ self.now.settings.blocks }
        requires long { Long self.now.settings (lent tables.now) }
        ensures { result ≡ true → InOrder self.now.settings n (lent tables.now) }
    {
        let known = &tables.known[..n as usize];
        if !no_repeat(known) {
            return false;
        }
        note_all(hints, known);
        self.rows_in_order(n, hints, tables)
    }
}
