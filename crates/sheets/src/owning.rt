ghost use Rattle.std.specs.Prelude.{◌≡◌, ◌*◌, ◌≤◌, false};
ghost use Rattle.sheets.specs.Steps.{lists_of};
ghost use Rattle.tables.specs.Calls.{short};

use super::owned::OwnTables;
use setmap::SetMap;
use study::OpenStudy;
use tables::Settings;

// An open study with tables of its own, which are long enough for it.
#[derive(Drop)]
pub struct SheetStudy<M: SetMap> {
    // The study's own map and settings, which it shows to no caller.
    pub(super) map: M,
    pub(super) settings: Settings,
    pub(super) study: OpenStudy<M>,
    pub(super) tables: OwnTables,
    ghost same_map: { map ≡ study.setup.map },
    ghost same_settings: { settings ≡ study.setup.settings },
    ghost long: { short settings (lists_of tables) ≡ false },
    ghost wide: { settings.levels * settings.blocks ≤ settings.entries },
}
