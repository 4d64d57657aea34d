ghost use Rattle.std.specs.Prelude.{◌≡◌, ◌+◌, ◌%◌, ◌<◌};
ghost use Rattle.setmap.specs.Mapping.{shared};
ghost use Rattle.setmap.specs.Maps.{by_bits, by_thirds};

// How many of the levels from 0 to `last` two blocks share where level i goes by the i lowest bits:
// the numbers agree in the bits below the first in which they differ.
// Numbers that agree modulo 3 share as many where level i has three times as many sets.
pub(super) fn levels_by_bits(a: u32, b: u32, last: u32) -> u32
    requires { last < 30 }
    ensures bits { result ≡ shared (by_bits (last + 1)) a b }
    ensures thirds { a % 3 ≡ b % 3 → result ≡ shared (by_thirds (last + 1)) a b }
{
    (a ^ b).trailing_zeros().min(last) + 1
}
