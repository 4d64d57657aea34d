ghost use Rattle.std.specs.Prelude.{◌≡◌, ◌+◌, ◌^◌, ◌<◌, ◌≤◌, ◌&&◌, not, length, drop, if◌then◌else◌, is_ok};
ghost use Rattle.levels.specs.Levels.{is_none};
ghost use Rattle.stack.specs.Stack.{stack, touched};
ghost use Rattle.stack.specs.Touch.{has_room};
ghost use Rattle.stack.specs.Walk.{past_stop, place_of, Walked};

use super::Entry;
use super::walk::{Walk, walk_to};
use setmap::SetMap;
use trace::Block;

// How many entries the stack has.
fn stack_len(es: &[Entry]) -> usize
    ensures is { result ≡ length (stack es.now) }
    ensures within { result ≤ length es.now }
{
    es.iter().take_while(|e| !matches!(e, Entry::Empty)).count()
}

// Where the stack from `from` on ends.
pub(super) fn stack_end(es: &[Entry], from: usize) -> usize
    requires { from ≤ length es.now }
    ensures is { result ≡ from + length (stack (drop from es.now)) }
    ensures within { result ≤ length es.now }
{
    from + stack_len(&es[from..])
}

impl Walk {
    // Whether the block's old place becomes a marker.
    pub(super) fn leaves_marker(&self) -> bool
        ensures { result ≡ (is_ok self.now.stop && not (is_none self.now.given)) }
    {
        self.stop.is_ok() && !self.given.is_none()
    }

    // How many entries stand above the rest of the stack, under the new top.
    pub(super) fn packed_len(&self) -> usize
        requires { self.now.stays + 1 < 2 ^ 64 }
        ensures { result ≡ self.now.stays + (if is_ok self.now.stop && not (is_none self.now.given) then 1 else 0) }
    {
        self.stays + usize::from(self.leaves_marker())
    }

    // Where the walk stopped, whether at the block or at the end.
    pub(super) fn place(&self) -> usize
        ensures { result ≡ place_of self.now.stop }
    {
        match self.stop {
            Ok(place) | Err(place) => place,
        }
    }

    // Where the rest of the stack begins.
    pub(super) fn rest_start(&self) -> usize
        requires { place_of self.now.stop + 1 < 2 ^ 64 }
        ensures { result ≡ past_stop self.now.stop }
    {
        match self.stop {
            Ok(place) => place + 1,
            Err(end) => end,
        }
    }
}

// Whether the stack after an own reference to q fits into the stretch. Only a stack that would grow is walked to its end.
// That the walk is one down these entries stays asked for, here and in an own reference: it speaks of a slice that a walk does not hold.
pub(super) fn fits<M: SetMap>(es: &[Entry], q: Block, map: &M, walk: &Walk) -> bool
    requires { Walked (M.meaning map.now) q es.now walk.now }
    ensures { result ≡ has_room (M.meaning map.now) q es.now }
{
    let rest = walk.rest_start();
    walk.packed_len() < rest || stack_end(es, rest) < es.len()
}

// How many entries the stack would have after an own reference to q.
pub fn entries_after<M: SetMap>(es: &[Entry], q: Block, map: &M) -> usize
    ensures { result ≡ length (touched (M.meaning map.now) q (stack es.now)) }
{
    let walk = walk_to(es, q, map);
    let rest = walk.rest_start();
    walk.packed_len() + 1 + (stack_end(es, rest) - rest)
}
