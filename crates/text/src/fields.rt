ghost use Rattle.std.specs.Prelude.{◌≡◌, ◌^◌, min, true, false, Ok, Err};
ghost use Rattle.trace.specs.Text.{all_digits, digits_value, number_field, operation_field};
ghost use Rattle.text.specs.Cuts.{upto, past};
ghost use Rattle.text.specs.Told.{Refused};
ghost use Rattle.text.specs.declared.faults.Wrong.TheVariants.{Form};

use super::cut::take_field;
use super::faults::{FieldFault, Wrong};
use trace::Operation;

// Each reader is told the item, for the fault that passes by ?; what it leaves of the line goes to the next.

// The value of digits, held at 2^32 from there on: above every limit it stays above.
fn read_digits(field: &[u8], item: u64) -> Result<u64, FieldFault>
    ensures { elim result [ Ok n ↦ (all_digits field.now ≡ true) × (n ≡ min (digits_value field.now) (2 ^ 32)) | Err e ↦ (all_digits field.now ≡ false) × (e ≡ record { item = item; wrong = Form }) ] }
{
    let mut value: u64 = 0;
    for b in field {
        match *b {
            b'0'..=b'9' => value = (value * 10 + u64::from(*b - b'0')).min(1 << 32),
            _ => return Err(FieldFault::new(item, Wrong::Form)),
        }
    }
    Ok(value)
}

// The number up to the limit that a field writes.
pub fn read_number(field: &[u8], limit: u32, item: u64) -> Result<u32, FieldFault>
    ensures { elim result [ Ok n ↦ number_field limit field.now ≡ Ok n | Err e ↦ Refused (number_field limit field.now) item e ] }
{
    if let [] | [b'0', _, ..] = field {
        return Err(FieldFault::new(item, Wrong::Form));
    }
    let value = read_digits(field, item)?;
    match u32::try_from(value) {
        Ok(number) if number <= limit => Ok(number),
        _ => Err(FieldFault::new(item, Wrong::Size)),
    }
}

// The operation that a field names by its letter.
pub fn read_operation(field: &[u8], item: u64) -> Result<Operation, FieldFault>
    ensures { elim result [ Ok x ↦ operation_field field.now ≡ Ok x | Err e ↦ Refused (operation_field field.now) item e ] }
{
    let [letter] = field else {
        return Err(FieldFault::new(item, Wrong::Form));
    };
    Operation::try_from(char::from(*letter)).map_err(|_| FieldFault::new(item, Wrong::Form))
}

// The first field of a line as a number up to the limit, and the rest of the line.
pub fn take_number(line: &[u8], limit: u32, item: u64) -> Result<(u32, &[u8]), FieldFault>
    ensures { elim result [ Ok x ↦ (number_field limit (upto 44 line.now) ≡ Ok x.0) × (x.1.now ≡ past 44 line.now) | Err e ↦ Refused (number_field limit (upto 44 line.now)) item e ] }
{
    let (field, rest) = take_field(line);
    let value = read_number(field, limit, item)?;
    Ok((value, rest))
}

// One function over both readers would be longer than the two: it needs a bound, its clause, and a caller for each.
// The first field of a line as an operation, and the rest of the line.
pub fn take_operation(line: &[u8], item: u64) -> Result<(Operation, &[u8]), FieldFault>
    ensures { elim result [ Ok x ↦ (operation_field (upto 44 line.now) ≡ Ok x.0) × (x.1.now ≡ past 44 line.now) | Err e ↦ Refused (operation_field (upto 44 line.now)) item e ] }
{
    let (field, rest) = take_field(line);
    let operation = read_operation(field, item)?;
    Ok((operation, rest))
}
