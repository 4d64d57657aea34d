#![tactic(auto)]

ghost use Rattle.std.specs.Prelude.{◌≡◌, ◌+◌, ◌^◌, ◌<◌, ◌≤◌, [], length};
ghost use Rattle.trace.specs.Records.{record_items};

use self::faults::RecordFault;
use self::references::reference_of;
use trace::{Fault, Reference, Refusal, Source, Unread};

mod faults;
mod references;
pub mod worked;

// The references of a trace in its binary form: six bytes for each.
// A type of its own beside the text's, since other bytes mean the items, and each contract says which.
#[derive(Drop)]
pub struct Records<'a> {
    unread: Unread<'a>,
}

impl<'a> Records<'a> {
    pub fn new(bytes: &'a [u8]) -> Records<'a>
        ensures items { record_items result.unread.bytes.now ≡ record_items bytes.now }
        ensures answered { result.unread.answered ≡ 0 }
    {
        Records {
            unread: Unread::new(bytes),
        }
    }

    // The rest of a trace of which so many items have been answered; none of it where their count could overflow.
    pub fn after(bytes: &'a [u8], answered: u64) -> Records<'a>
        ensures items { answered + length bytes.now < 2 ^ 64 → record_items result.unread.bytes.now ≡ record_items bytes.now }
        ensures none { 2 ^ 64 ≤ answered + length bytes.now → record_items result.unread.bytes.now ≡ [] }
        ensures answered { result.unread.answered ≡ answered }
    {
        Records {
            unread: Unread::after(bytes, answered),
        }
    }
}

impl<'a> Source for Records<'a> {
    ghost items = { λ s. record_items s.unread.bytes.now };

    ghost answered = { λ s. s.unread.answered };

    fn next(&mut self) -> Result<Option<Reference>, Fault> {
        let Some((bytes, item)) = self.unread.begin_item() else {
            return Ok(None);
        };
        // a record's bytes by name, in their order, so that no index stands for one
        let [processor, operation, a3, a2, a1, a0, rest @ ..] = bytes else {
            return Err(Fault::from(RecordFault {
                refusal: Refusal::CutOff,
                item,
            }));
        };
        // first, so that a refused record is passed over too
        self.unread.bytes = rest;
        let reference = reference_of(*processor, *operation, [*a3, *a2, *a1, *a0], item)?;
        Ok(Some(reference))
    }

    fn count(&self) -> u64 {
        self.unread.answered
    }
}
