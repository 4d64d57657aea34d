ghost use Rattle.std.specs.Prelude.{◌≡◌, [], List, map, IfOk};
ghost use Rattle.sheets.specs.Sheets.{fault_line};

use report::RefusedLine;
use std::alloc::{AllocError, Global};
use trace::{Fault, Sink};

// The faults of a bulk feed, in a list that grows.
#[derive(Drop)]
pub(super) struct Faults {
    list: Vec<Fault>,
}

impl Faults {
    pub(super) fn none(heap: Global) -> Faults
        ensures { result.list.items ≡ [] }
    {
        Faults {
            list: Vec::new(heap),
        }
    }

    // The faults by their items' numbers.
    pub(super) fn lines(&self, heap: Global) -> Result<Vec<RefusedLine>, AllocError>
        ensures { IfOk result (λ v. v.items ≡ map fault_line self.now.list.items) }
    {
        self.list
            .iter()
            .map(|fault| RefusedLine::from(*fault))
            .collect(heap)
    }
}

impl Sink for Faults {
    ghost taken = { λ f. f.list.items };

    fn take(&mut self, fault: Fault) -> Result<(), Fault> {
        self.list.push(fault).map_err(|refused| refused.value)
    }
}
