ghost use Rattle.study.specs.Limits.{Limited};

use setmap::SetMap;
use tables::Settings;

// What a study is set up on: a map, and settings within their limits.
// Only what makes one takes the two apart. What a number or the tables must be in these settings stays asked for:
// a type for it would have to carry the settings along.
#[derive(Drop)]
pub(super) struct Setup<M: SetMap> {
    pub(super) map: M,
    pub(super) settings: Settings,
    ghost limited: { Limited settings },
}
