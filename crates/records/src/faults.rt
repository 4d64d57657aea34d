ghost use Rattle.std.specs.Prelude.{◌≡◌};
ghost use Rattle.records.specs.Faults.{of_source};

use trace::{Fault, Layer, Refusal};

// A refused record: why, and which one by the source's count. It is the reader's own layer, which becomes a Fault by ?.
#[derive(Clone, Copy, PartialEq, Eq)]
pub struct RecordFault {
    pub refusal: Refusal,
    pub item: u64,
}

impl From<RecordFault> for Fault {
    ghost from_gives = { λ e r. r ≡ of_source e };

    fn from(e: RecordFault) -> Fault {
        Fault {
            refusal: e.refusal,
            item: e.item,
            layer: Layer::Source,
        }
    }
}
