ghost use Rattle.std.specs.Prelude.{◌≡◌};
ghost use Rattle.sheet_report.specs.Settings.{chosen};
ghost use Rattle.trace.specs.Text.{pieces};

use super::Chosen;
use report::take_map;
use sheets::Sizes;
use text::cut::count_fields;
use text::fields::take_number;
use trace::Refusal;

// Line 1, `map,processors,shift,levels,ways,blocks`, without its line feed.
// Its fields are no item of the trace: their item is 0, which the refusal leaves out.
// Like the spot check's line but for the fields; what one leaves goes to the next one's reader.
pub fn read_settings(line: &[u8]) -> Result<Chosen, Refusal>
    ensures { result ≡ chosen (pieces 44 line.now) }
{
    if count_fields(line) != 6 {
        return Err(Refusal::Form);
    }
    let (map, rest) = take_map(line)?;
    let (processors, rest) = take_number(rest, u32::MAX, 0)?;
    let (shift, rest) = take_number(rest, u32::MAX, 0)?;
    let (levels, rest) = take_number(rest, u32::MAX, 0)?;
    let (ways, rest) = take_number(rest, u32::MAX, 0)?;
    let (blocks, _) = take_number(rest, u32::MAX, 0)?;
    Ok(Chosen {
        map,
        sizes: Sizes {
            processors,
            shift,
            levels,
            ways,
            blocks,
        },
    })
}
