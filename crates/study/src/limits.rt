ghost use Rattle.std.specs.Prelude.{◌≡◌, false};
ghost use Rattle.study.specs.Limits.{Limited};
ghost use Rattle.tables.specs.Calls.{unlimited};

use levels::LEVELS;
use order::rows;
use tables::Settings;

// Whether a setting is outside its limits.
pub(super) fn is_unlimited(s: Settings) -> bool
    ensures value { result ≡ unlimited s }
    ensures limited { result ≡ false → Limited s }
{
    s.processors < 1
        || s.processors > 64
        || s.shift > 12
        || s.levels < 1
        || s.levels > LEVELS as u32
        || s.ways < 1
        || s.ways > 16
        || s.blocks < 1
        || s.blocks > rows::MOST as u32
        || s.entries < 1
        || s.entries > 69632
}
