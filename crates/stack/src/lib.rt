#![tactic(auto)]

use levels::Levels;
use trace::Block;

pub mod lose;
mod marker;
pub mod room;
pub mod touch;
pub mod walk;
pub mod worked;

// An entry of a processor's stretch. What stands before the first empty entry is the processor's stack.
// A marker keeps the place that its block had, at the levels at which that place still counts.
// One enum of three, so that one match tells what stands there; the stretch has a fixed length, since a stack takes nothing from the heap.
#[derive(Clone, Copy)]
pub enum Entry {
    Empty,
    Block(Block),
    Marker(Block, Levels),
}
