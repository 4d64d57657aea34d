ghost use Rattle.std.specs.Prelude.{◌≡◌, ◌*◌, ◌^◌, ◌≤◌, Ok, Err};
ghost use Rattle.sheets.specs.Settings.{SettingsFrom};

use super::Sizes;
use tables::Settings;
use trace::Refusal;

// The settings of a study of these sizes; entries that are too many to tell are too many for any study.
impl TryFrom<Sizes> for Settings {
    type Error = Refusal;

    ghost try_from_gives = { SettingsFrom };

    fn try_from(sizes: Sizes) -> Result<Settings, Refusal> {
        let entries = sizes
            .levels
            .checked_mul(sizes.blocks)
            .ok_or(Refusal::Setting)?;
        Ok(Settings {
            processors: sizes.processors,
            shift: sizes.shift,
            levels: sizes.levels,
            ways: sizes.ways,
            blocks: sizes.blocks,
            entries,
        })
    }
}
