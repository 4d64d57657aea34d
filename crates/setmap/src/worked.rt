ghost use Rattle.std.specs.Prelude.{◌≡◌, [], ◌∷◌};
ghost use Rattle.setmap.specs.Worked.{WorkedMaps};

use super::SetMap;
use super::bit_choice::BitChoice;
use super::thirds::Thirds;

// The shared levels of the worked pairs: 5 and 13, 5 and 9, 5 and 5 by bit choice, 1 and 13, 1 and 3 by thirds.
pub fn worked_pairs() -> [u32; 5]
    ensures theorem { WorkedMaps }
    ensures answers { result ≡ 4 ∷ (3 ∷ (17 ∷ (3 ∷ (0 ∷ [])))) }
{
    [
        BitChoice.shared_levels(5, 13),
        BitChoice.shared_levels(5, 9),
        BitChoice.shared_levels(5, 5),
        Thirds.shared_levels(1, 13),
        Thirds.shared_levels(1, 3),
    ]
}
