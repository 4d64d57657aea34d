ghost use Rattle.std.specs.Prelude.{◌≡◌, min, List, nat_le};
ghost use Rattle.setmap.specs.Mapping.{Mapping};
ghost use Rattle.stack.specs.declared.Entry.{Entry as StackEntry};
ghost use Rattle.stack.specs.Stack.{stack};
ghost use Rattle.stack.specs.Walk.{Walked};
ghost use Rattle.tables.specs.Calls.{scores};
ghost use Rattle.trace.specs.declared.Block.{Block as MemoryBlock};

use super::Settings;
use levels::LEVELS;
use places::bump;
use stack::walk::Walk;

// Whether a cache of so many ways reaches a position.
fn reaches(ways: u32, position: usize) -> bool
    ensures { result ≡ nat_le position ways }
{
    position <= ways as usize
}

// One more, at each level, at the counter of the position that a walk found, in counters that begin at `from`.
// A walk knows seventeen levels; a counter past the end alters nothing.
pub fn score(counters: &mut [u32], s: Settings, from: usize, walk: &Walk)
    ensures { (m : Mapping) (q : MemoryBlock) (es : List StackEntry) → Walked m q es walk.now → counters.new ≡ scores m s from q (stack es) (min s.levels 17) counters.old }
{
    if walk.stop.is_ok() {
        let levels = s.levels.min(LEVELS as u32) as usize;
        for (i, &k) in walk.positions[..levels].iter().enumerate() {
            if reaches(s.ways, k) {
                let at = i * s.ways as usize + k.saturating_sub(1);
                bump(counters, from.saturating_add(at));
            }
        }
    }
}
