ghost use Rattle.std.specs.Prelude.{◌≡◌, slice_index};
ghost use Rattle.trace.specs.Records.{record_of};
ghost use Rattle.records.specs.Faults.{in_record};

use super::faults::RecordFault;
use trace::{Operation, Reference, Refusal};

// The reference that the bytes of a record make; its address has the highest byte first.
pub fn reference_of(
    processor: u8,
    operation: u8,
    address: [u8; 4],
    item: u64,
) -> Result<Reference, RecordFault>
    ensures { result ≡ in_record item (record_of processor operation (slice_index address 0) (slice_index address 1) (slice_index address 2) (slice_index address 3)) }
{
    let operation = Operation::try_from(operation).map_err(|_| RecordFault {
        refusal: Refusal::Form,
        item,
    })?;
    Ok(Reference {
        processor: u32::from(processor),
        operation,
        address: u32::from_be_bytes(address),
    })
}
