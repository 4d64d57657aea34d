ghost use Rattle.std.specs.Prelude.{◌≡◌};
ghost use Rattle.trace.specs.Text.{pieces};
ghost use Rattle.spot_report.specs.Settings.{chosen};

use super::Chosen;
use report::take_map;
use single::Settings;
use text::cut::count_fields;
use text::fields::take_number;
use trace::Refusal;

// Line 1, `map,processors,shift,level,ways`, without its line feed.
// Its fields are no item of the trace: their item is 0, which the refusal leaves out.
// Like the evening sheet's line but for the fields; what one leaves goes to the next one's reader.
pub fn read_settings(line: &[u8]) -> Result<Chosen, Refusal>
    ensures { result ≡ chosen (pieces 44 line.now) }
{
    if count_fields(line) != 5 {
        return Err(Refusal::Form);
    }
    let (map, rest) = take_map(line)?;
    let (processors, rest) = take_number(rest, u32::MAX, 0)?;
    let (shift, rest) = take_number(rest, u32::MAX, 0)?;
    let (level, rest) = take_number(rest, u32::MAX, 0)?;
    let (ways, _) = take_number(rest, u32::MAX, 0)?;
    Ok(Chosen {
        map,
        settings: Settings {
            processors,
            shift,
            level,
            ways,
        },
    })
}
