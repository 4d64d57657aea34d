ghost use Rattle.std.specs.Prelude.{◌≡◌, ◌+◌, length, IfOk, Ok, Err};
ghost use Rattle.cutting.specs.Cutting.{items_of};
ghost use Rattle.grid_report.specs.Grids.{NotRead};
ghost use Rattle.sheets.specs.Studies.{PutThrough};

use super::{Grid, ReadError};
use cutting::Form;
use records::Records;
use report::RefusedLine;
use setmap::SetMap;
use std::alloc::{AllocError, Global};
use text::source::Text;
use trace::Source;

impl<M: SetMap + Copy> Grid<M> {
    // Puts a source to the study, to its end, and gives its refused items.
    fn feed_from<S: Source + Drop>(
        &mut self,
        heap: Global,
        mut source: S,
    ) -> Result<Vec<RefusedLine>, AllocError>
        ensures through { IfOk result (λ v. PutThrough (M.meaning self.old.study.map) self.old.study self.new.study (S.items source) (S.answered source + 1) v.items × (self.new.count ≡ S.answered source + length (S.items source))) }
        ensures map { self.new.study.map ≡ self.old.study.map }
        ensures settings { self.new.study.settings ≡ self.old.study.settings }
        ensures form { self.new.form ≡ self.old.form }
        ensures held { self.new.held ≡ self.old.held }
    {
        let refused = self.study.feed_all(heap, &mut source)?;
        self.count = source.count();
        Ok(refused)
    }

    // Puts the next bytes of the trace to the study, and gives the refused items.
    pub(super) fn feed_bytes(
        &mut self,
        heap: Global,
        bytes: &[u8],
    ) -> Result<Vec<RefusedLine>, ReadError>
        ensures through { elim result [ Ok v ↦ PutThrough (M.meaning self.old.study.map) self.old.study self.new.study (items_of self.old.form bytes.now) (self.old.count + 1) v.items × (self.new.count ≡ self.old.count + length (items_of self.old.form bytes.now)) | Err y ↦ NotRead (self.old.count + length bytes.now) y ] }
        ensures map { self.new.study.map ≡ self.old.study.map }
        ensures settings { self.new.study.settings ≡ self.old.study.settings }
        ensures form { self.new.form ≡ self.old.form }
        ensures held { self.new.held ≡ self.old.held }
    {
        self.count
            .checked_add(bytes.len() as u64)
            .ok_or(ReadError::TooLong)?;
        // The form is asked anew: a source lends its bytes, so each piece has its own.
        match self.form {
            Form::Text => Ok(self.feed_from(heap, Text::after(bytes, self.count))?),
            Form::Records => Ok(self.feed_from(heap, Records::after(bytes, self.count))?),
        }
    }
}
