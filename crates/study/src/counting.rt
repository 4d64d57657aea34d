ghost use Rattle.std.specs.Prelude.{◌≡◌, ◌+◌, ◌^◌, ◌≤◌, List};
ghost use Rattle.places.specs.Parts.{start, more};
ghost use Rattle.setmap.specs.Mapping.{Mapping};
ghost use Rattle.stack.specs.declared.Entry.{Entry as StackEntry};
ghost use Rattle.stack.specs.Stack.{stack};
ghost use Rattle.stack.specs.Walk.{Walked};
ghost use Rattle.tables.specs.Calls.{scores, past_counter};
ghost use Rattle.tables.specs.Tables.{row, references_at, hits_from, drops_from};
ghost use Rattle.trace.specs.declared.Block.{Block as MemoryBlock};
ghost use Rattle.study.specs.Limits.{IsProcessor};

use super::setup::Setup;
use places::bump;
use setmap::SetMap;
use stack::walk::Walk;
use tables::Mark;
use tables::scoring::score;

impl<M: SetMap> Setup<M> {
    // What a reference finds of the past: none, or a loss.
    fn count_past(&self, counters: &mut [u32], p: u32, first: usize, mark: Mark)
        requires { (first ≡ start (row self.now.settings) p) × (first ≤ 2 ^ 26) }
        ensures { counters.new ≡ past_counter self.now.settings p mark counters.old }
    {
        match mark {
            Mark::Never => bump(counters, first + 1),
            Mark::Held => {}
            Mark::Lost => bump(counters, first + 2),
        }
    }

    // The counters of a position, at each of the study's levels.
    fn count_levels(&self, counters: &mut [u32], from: usize, walk: &Walk)
        ensures { (m : Mapping) (q : MemoryBlock) (es : List StackEntry) → Walked m q es walk.now → counters.new ≡ scores m self.now.settings from q (stack es) self.now.settings.levels counters.old }
    {
        score(counters, self.settings, from, walk);
    }

    // The counters of an own reference.
    pub(super) fn count_own(&self, counters: &mut [u32], p: u32, mark: Mark, walk: &Walk)
        requires { IsProcessor self.now.settings p }
        ensures { (m : Mapping) (q : MemoryBlock) (es : List StackEntry) → Walked m q es walk.now → counters.new ≡ scores m self.now.settings (hits_from self.now.settings p) q (stack es) self.now.settings.levels (past_counter self.now.settings p mark (more (references_at self.now.settings p) counters.old)) }
    {
        let first = self.part_start(self.row_length(), p);
        bump(counters, first);
        self.count_past(counters, p, first, mark);
        self.count_levels(counters, first + 3, walk);
    }

    // The counters of another's write.
    pub(super) fn count_drops(&self, counters: &mut [u32], p: u32, walk: &Walk)
        requires { IsProcessor self.now.settings p }
        ensures { (m : Mapping) (q : MemoryBlock) (es : List StackEntry) → Walked m q es walk.now → counters.new ≡ scores m self.now.settings (drops_from self.now.settings p) q (stack es) self.now.settings.levels counters.old }
    {
        let first = self.part_start(self.row_length(), p);
        let hits = self.settings.levels as usize * self.settings.ways as usize;
        self.count_levels(counters, first + (3 + hits), walk);
    }
}
