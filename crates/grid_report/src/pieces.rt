ghost use Rattle.std.specs.Prelude.{◌≡◌, ℕ, ◌+◌, List, ◌++◌, length, Ok, Err, vec_len};
ghost use Rattle.grid_report.specs.Grids.{NotRead, trace_reading, HasRead};
ghost use Rattle.report.specs.declared.RefusedLine.{RefusedLine as RefusedItem};
ghost use Rattle.sheets.specs.Sheets.{rows};

use super::{Grid, ReadError};
use cutting::whole_items;
use report::{RefusedLine, Report};
use setmap::SetMap;
use sheets::Row;
use std::alloc::Global;
use std::mem;

impl<M: SetMap + Copy> Grid<M> {
    // Takes the next bytes of the trace, and gives the refused ones of the items that are whole now, by their number in the trace. After an error the grid is of no more use.
    pub fn add(&mut self, heap: Global, bytes: &[u8]) -> Result<Vec<RefusedLine>, ReadError>
        ensures read { elim result [ Ok v ↦ ((before : List ℕ) (refused : List RefusedItem) → HasRead (M.meaning self.old.study.map) self.old before refused → HasRead (M.meaning self.old.study.map) self.new (before ++ bytes.now) (refused ++ v.items)) | Err y ↦ NotRead (self.old.count + (vec_len self.old.held + length bytes.now)) y ] }
        ensures map { self.new.study.map ≡ self.old.study.map }
        ensures settings { self.new.study.settings ≡ self.old.study.settings }
        ensures form { self.new.form ≡ self.old.form }
    {
        self.held.extend_from_slice(bytes)?;
        let whole = whole_items(self.form, self.held.as_slice());
        let rest = self.held.split_off(whole)?;
        let items = mem::replace(&mut self.held, rest);
        self.feed_bytes(heap, items.as_slice())
    }

    // The end of the trace: what is held is its last item, cut off. The report has what is refused at the end, and a row for each processor, level and number of ways.
    pub fn finish(mut self, heap: Global) -> Result<Report<Row>, ReadError>
        ensures { elim result [ Ok x ↦ ((bytes : List ℕ) (refused : List RefusedItem) → HasRead (M.meaning self.study.map) self bytes refused → (refused ++ x.refused.items ≡ (trace_reading self.study.settings self.form bytes).refused) × (x.rows.items ≡ rows (M.meaning self.study.map) (trace_reading self.study.settings self.form bytes).history self.study.settings.levels self.study.settings.ways self.study.settings.processors)) | Err y ↦ NotRead (self.count + vec_len self.held) y ] }
    {
        let held = mem::replace(&mut self.held, Vec::new(heap));
        let refused = self.feed_bytes(heap, held.as_slice())?;
        let Grid { study, .. } = self;
        let rows = study.finish(heap)?;
        Ok(Report { refused, rows })
    }
}
