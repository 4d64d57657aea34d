ghost use Rattle.setmap.specs.Maps.{thirds};
ghost use Rattle.setmap.specs.Laws.{thirds_lawful};

use super::SetMap;
use super::bits::levels_by_bits;

// Three times 2^i sets at level i of 16: the remainder of the block number chooses.
// Written beside bit choice: one form for both takes a trait of two constants with their meanings and laws, which is longer.
#[derive(Clone, Copy)]
pub struct Thirds;

impl SetMap for Thirds {
    ghost meaning = { λ _. thirds };

    ghost lawful = { λ m. thirds_lawful };

    fn set(&self, level: u32, block: u32) -> u32 {
        block % self.sets(level)
    }

    fn sets(&self, level: u32) -> u32 {
        3 << level.min(15)
    }

    // Numbers that differ modulo 3 share no level.
    fn shared_levels(&self, a: u32, b: u32) -> u32 {
        if a % 3 == b % 3 {
            levels_by_bits(a, b, 15)
        } else {
            0
        }
    }
}
