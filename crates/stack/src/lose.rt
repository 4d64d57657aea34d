ghost use Rattle.std.specs.Prelude.{◌≡◌};
ghost use Rattle.stack.specs.Stack.{stack, dropped, restack};
ghost use Rattle.stack.specs.Walk.{Walked};

use super::Entry;
use super::walk::{Walk, walk_to};
use levels::Levels;
use setmap::SetMap;
use trace::Block;

// Another processor's write of q, in a study of so many levels: q is lost, and its positions at the levels are answered.
// The marker that it leaves in its place keeps counting at all those levels.
pub fn lose<M: SetMap>(es: &mut [Entry], q: Block, levels: u32, map: &M) -> Walk
    ensures stretch { es.new ≡ restack (dropped levels q (stack es.old)) es.old }
    ensures walk { Walked (M.meaning map.now) q es.old result }
{
    let walk = walk_to(es, q, map);
    if let Ok(place) = walk.stop {
        es[place] = Entry::Marker(q, Levels::below(levels));
    }
    walk
}
