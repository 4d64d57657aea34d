ghost use Rattle.setmap.specs.Maps.{bit_choice};
ghost use Rattle.setmap.specs.Laws.{bit_choice_lawful};

use super::SetMap;
use super::bits::levels_by_bits;

// 2^i sets at level i of 17: the i lowest bits of the block number choose.
#[derive(Clone, Copy)]
pub struct BitChoice;

impl SetMap for BitChoice {
    ghost meaning = { λ _. bit_choice };

    ghost lawful = { λ m. bit_choice_lawful };

    fn set(&self, level: u32, block: u32) -> u32 {
        block % self.sets(level)
    }

    fn sets(&self, level: u32) -> u32 {
        1 << level.min(16)
    }

    fn shared_levels(&self, a: u32, b: u32) -> u32 {
        levels_by_bits(a, b, 16)
    }
}
