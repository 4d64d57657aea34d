ghost use Rattle.std.specs.Prelude.{◌≡◌, ◌≤◌, length, take, IfOk, IfSome, Ok, Err};
ghost use Rattle.report.specs.Inputs.{input_lines};
ghost use Rattle.trace.specs.Text.{pieces};

use super::{INPUT_LIMIT, RefusedLine};
use std::alloc::Global;
use std::io;
use std::io::Read;
use text::cut::split_line;
use trace::Refusal;

// The bytes of a source, but no more of them than one past the limit.
pub fn read_input<R: Read + Drop>(heap: Global, source: R) -> io::Result<Vec<u8>>
    ensures { IfOk result (λ v. IfSome (R.remaining source) (λ bytes. v.items ≡ take 65537 bytes)) }
{
    let mut input = Vec::new(heap);
    source.take(INPUT_LIMIT as u64 + 1).read_to_end(&mut input)?;
    Ok(input)
}

// The first line of an input, without its line feed, and the rest.
pub fn split_input(input: &[u8]) -> Result<(&[u8], &[u8]), RefusedLine>
    ensures { elim result [ Ok x ↦ (input_lines input.now ≡ Ok (x.0.now, pieces 10 x.1.now)) × (length x.1.now ≤ 65536) | Err e ↦ input_lines input.now ≡ Err e ] }
{
    if input.len() > INPUT_LIMIT {
        return Err(RefusedLine::new(0, Refusal::Input));
    }
    match split_line(input) {
        Some(split) => Ok(split),
        None if input.is_empty() => Err(RefusedLine::new(1, Refusal::Form)),
        None => Err(RefusedLine::new(1, Refusal::CutOff)),
    }
}
