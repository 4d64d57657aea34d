ghost use Rattle.std.specs.Prelude.{◌≡◌, ◌+◌, ◌<◌, ◌≤◌, length, take, drop, slice_set};
ghost use Rattle.levels.specs.Levels.{no_level};
ghost use Rattle.stack.specs.declared.Entry.TheVariants.{Marker};
ghost use Rattle.stack.specs.Stack.{stack, touched, restack};
ghost use Rattle.stack.specs.Touch.{after, Answered, over, cleared, moved_up, raised, packed};
ghost use Rattle.stack.specs.Walk.{above, thinned, Walked};

use super::Entry;
use super::marker::meet;
use super::room::{fits, stack_end};
use super::walk::{Walk, walk_to};
use levels::Levels;
use places::bring_to_front;
use setmap::SetMap;
use trace::Block;

// Makes a part empty.
fn clear(es: &mut [Entry], from: usize, end: usize)
    requires { (from ≤ end) × (end ≤ length es.old) }
    ensures { es.new ≡ cleared from end es.old }
{
    es[from..end].fill(Entry::Empty);
}

// Moves the stack from `rest` on up to `to`.
fn move_up(es: &mut [Entry], to: usize, rest: usize)
    requires { (to ≤ rest) × (rest ≤ length es.old) }
    ensures { es.new ≡ moved_up to rest es.old }
{
    if to < rest {
        let end = stack_end(es, rest);
        es.copy_within(rest..end, to);
        clear(es, to + (end - rest), end);
    }
}

// Puts q on top of the first `to` entries, with the stack from `rest` on right under them.
fn raise(es: &mut [Entry], q: Block, to: usize, rest: usize)
    requires { (to ≤ rest) × ((rest ≤ length es.old) × (to + 1 + length (stack (drop rest es.old)) ≤ length es.old)) }
    ensures { es.new ≡ raised q to rest es.old }
{
    if to < rest {
        es[to] = Entry::Block(q);
        bring_to_front(es, to);
        move_up(es, to + 1, rest);
    } else {
        let end = stack_end(es, rest);
        es[end] = Entry::Block(q);
        bring_to_front(es, end);
    }
}

// Takes from the markers among the first `place` entries what they give up to q.
// What stays moves up in place, behind the entry that is read, so both places are counted.
fn thin<M: SetMap>(es: &mut [Entry], place: usize, q: Block, map: &M)
    requires { place ≤ length es.old }
    ensures { es.new ≡ over (thinned (M.meaning map.now) q no_level (take place es.old)) es.old }
{
    let mut given = Levels::none();
    let mut to = 0;
    for at in 0..place {
        match es[at] {
            Entry::Marker(b, v) => {
                let met = meet(q, b, v, given, map);
                given = given.either(met.gives);
                if met.stands() {
                    es[to] = Entry::Marker(b, met.keeps);
                    to += 1;
                }
            }
            e => {
                es[to] = e;
                to += 1;
            }
        }
    }
}

// Nothing is to be thinned where each entry above stays and no marker gives up a level.
fn thin_above<M: SetMap>(es: &mut [Entry], q: Block, map: &M, walk: &Walk)
    requires { Walked (M.meaning map.now) q es.old walk.now }
    ensures { es.new ≡ over (thinned (M.meaning map.now) q no_level (above q es.old)) es.old }
{
    let place = walk.place();
    if walk.stays < place || !walk.given.is_none() {
        thin(es, place, q, map);
    }
}

// Brings what the new top will stand on to the front.
fn pack<M: SetMap>(es: &mut [Entry], q: Block, map: &M, walk: &Walk)
    requires { Walked (M.meaning map.now) q es.old walk.now }
    ensures { es.new ≡ over (packed (M.meaning map.now) q es.old) es.old }
{
    thin_above(es, q, map, walk);
    if walk.leaves_marker() {
        es[walk.stays] = Entry::Marker(q, walk.given);
    }
}

// An own reference to q, after the walk to it.
// The block and the map stay two parameters: a struct of both makes each contract name them by two steps more.
fn touch_at<M: SetMap>(es: &mut [Entry], q: Block, map: &M, walk: &Walk)
    requires walked { Walked (M.meaning map.now) q es.old walk.now }
    requires fits { length (touched (M.meaning map.now) q (stack es.old)) ≤ length es.old }
    ensures { es.new ≡ restack (touched (M.meaning map.now) q (stack es.old)) es.old }
{
    pack(es, q, map, walk);
    raise(es, q, walk.packed_len(), walk.rest_start());
}

// An own reference to q, by one walk. Where the stack would not fit into the stretch, nothing is altered.
pub fn touch<M: SetMap>(es: &mut [Entry], q: Block, map: &M) -> Option<Walk>
    ensures stretch { es.new ≡ after (M.meaning map.now) q es.old }
    ensures answer { Answered (M.meaning map.now) q es.old result }
{
    let walk = walk_to(es, q, map);
    if fits(es, q, map, &walk) {
        touch_at(es, q, map, &walk);
        Some(walk)
    } else {
        None
    }
}
