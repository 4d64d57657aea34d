ghost use Rattle.std.specs.Prelude.{◌≡◌, ◌*◌, ◌≤◌, length};
ghost use Rattle.stack.specs.Stack.{stack, dropped, restack};
ghost use Rattle.stack.specs.Walk.{Walked};
ghost use Rattle.study.specs.Steps.{own_part, with_part, Touched};
ghost use Rattle.study.specs.Limits.{IsProcessor};

use super::setup::Setup;
use setmap::SetMap;
use stack::Entry;
use stack::lose::lose;
use stack::touch::touch;
use stack::walk::{Walk, walk_to};
use trace::Block;

// The bounds are written out three times: a function for them would take more lines, with its clauses, than it saves.
impl<M: SetMap> Setup<M> {
    // Processor p's own reference to q, in its stretch; the walk to q, or none and nothing altered where the stack would not fit.
    pub(super) fn touch_part(&self, p: u32, q: Block, entries: &mut [Entry]) -> Option<Walk>
        requires { (IsProcessor self.now.settings p) × (self.now.settings.processors * self.now.settings.entries ≤ length entries.old) }
        ensures { Touched (M.meaning self.now.map) self.now.settings p q entries.old result entries.new }
    {
        let n = self.settings.entries as usize;
        let a = self.part_start(n, p);
        touch(&mut entries[a..a + n], q, &self.map)
    }

    // Another's write of q, in processor p's stretch; the walk to q.
    pub(super) fn lose_part(&self, p: u32, q: Block, entries: &mut [Entry]) -> Walk
        requires { (IsProcessor self.now.settings p) × (self.now.settings.processors * self.now.settings.entries ≤ length entries.old) }
        ensures walk { Walked (M.meaning self.now.map) q (own_part self.now.settings p entries.old) result }
        ensures after { entries.new ≡ with_part self.now.settings p (restack (dropped self.now.settings.levels q (stack (own_part self.now.settings p entries.old))) (own_part self.now.settings p entries.old)) entries.old }
    {
        let n = self.settings.entries as usize;
        let a = self.part_start(n, p);
        lose(&mut entries[a..a + n], q, self.settings.levels, &self.map)
    }

    // The walk to q down processor p's stretch.
    pub(super) fn walk_part(&self, p: u32, q: Block, entries: &[Entry]) -> Walk
        requires { (IsProcessor self.now.settings p) × (self.now.settings.processors * self.now.settings.entries ≤ length entries.now) }
        ensures { Walked (M.meaning self.now.map) q (own_part self.now.settings p entries.now) result }
    {
        let n = self.settings.entries as usize;
        let a = self.part_start(n, p);
        walk_to(&entries[a..a + n], q, &self.map)
    }
}
