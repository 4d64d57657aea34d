ghost use Rattle.std.specs.Prelude.{◌≤◌};

use super::setup::Setup;
use setmap::SetMap;

// A study that takes references. Its tables are lent to each call.
// Plain numbers, moved by value; `kept_of` puts them together for the contracts.
#[derive(Drop)]
pub struct OpenStudy<M: SetMap> {
    pub(super) setup: Setup<M>,
    pub(super) known: u32,
    pub(super) accepted: u32,
    ghost known_blocks: { known ≤ setup.settings.blocks },
}
