ghost use Rattle.trace.specs.Text.{pieces};
ghost use Rattle.text.specs.Told.{LineRead};

use super::cut::count_fields;
use super::faults::LineFault;
use super::fields::{take_number, take_operation};
use trace::Reference;

// One line of a trace, `processor,operation,address`, which is the trace's item of this number.
pub fn read_line(line: &[u8], item: u64) -> Result<Reference, LineFault>
    ensures { LineRead item (pieces 44 line.now) result }
{
    if count_fields(line) != 3 {
        return Err(LineFault::Fields { item });
    }
    let (processor, rest) = take_number(line, 255, item)?;
    let (operation, rest) = take_operation(rest, item)?;
    let (address, _) = take_number(rest, u32::MAX, item)?;
    Ok(Reference {
        processor,
        operation,
        address,
    })
}
