// What the marker stack tells of the caches, whatever the map and the history: each function does nothing, and its contract states a law.
#![tactic(auto)]

ghost use Rattle.stack_theory.specs.Stacks.{PositionsTell, StacksBounded};

// A cache holds a block exactly if the block's position at its level is at most its ways.
pub fn positions_tell()
    ensures { PositionsTell }
{}

// A stack never has more entries than the levels times the blocks referred to.
pub fn stacks_bounded()
    ensures { StacksBounded }
{}
