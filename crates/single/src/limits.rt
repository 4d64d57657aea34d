ghost use Rattle.std.specs.Prelude.{◌≡◌, OnOk};
ghost use Rattle.single.specs.Calls.{settings_refusal};
ghost use Rattle.single.specs.Limits.{Limited};
ghost use Rattle.trace.specs.Refusals.{unless_refused};

use super::Settings;
use setmap::{SetMap, levels_of};
use trace::Refusal;

// Settings that no set-up refuses are within their limits, at a level that the map offers.
pub(super) fn check_settings<M: SetMap>(map: &M, s: Settings) -> Result<(), Refusal>
    ensures answer { result ≡ unless_refused (settings_refusal (M.meaning map.now) s) tt }
    ensures limited { OnOk result (Limited s) }
{
    if !(1..=64).contains(&s.processors)
        || s.shift > 12
        || s.level > 16
        || !(1..=16).contains(&s.ways)
    {
        return Err(Refusal::Setting);
    }
    if levels_of(map) <= s.level {
        return Err(Refusal::Level);
    }
    Ok(())
}
