ghost use Rattle.std.specs.Prelude.{◌≡◌, ◌+◌, [], length, IfOk, Some, None, Ok, Err, OnOk};
ghost use Rattle.caches.specs.Caches.{History};
ghost use Rattle.sheets.specs.Settings.{settings_of};
ghost use Rattle.sheets.specs.Sheets.{rows};
ghost use Rattle.sheets.specs.Steps.{lists_of};
ghost use Rattle.sheets.specs.Studies.{HasAccepted, PutThrough};
ghost use Rattle.tables.specs.Calls.{set_up_refusal};

use super::faults::Faults;
use super::owned::OwnTables;
use super::owning::SheetStudy;
use super::rows::ClosedSheet;
use super::{Row, Sizes};
use report::RefusedLine;
use setmap::SetMap;
use std::alloc::{AllocError, Global};
use study::OpenStudy;
use tables::{SeenTables, Settings};
use trace::{Refusal, Source};

impl<M: SetMap + Copy> SheetStudy<M> {
    // A study of these sizes on the tables, cleared; or why there is none.
    pub fn set_up(map: M, sizes: Sizes, mut tables: OwnTables) -> Result<SheetStudy<M>, Refusal>
        ensures { elim result [ Ok x ↦ (set_up_refusal (M.meaning map) (settings_of sizes) (lists_of tables) ≡ None) × (x.map ≡ map) × (x.settings ≡ settings_of sizes) × HasAccepted (M.meaning map) x [] | Err y ↦ set_up_refusal (M.meaning map) (settings_of sizes) (lists_of tables) ≡ Some y ] }
    {
        let settings = Settings::try_from(sizes)?;
        let study = OpenStudy::set_up(
            map,
            settings,
            tables.entries.as_mut_slice(),
            tables.known.as_slice(),
            tables.marks.as_mut_slice(),
            tables.counters.as_mut_slice(),
        )
        .map_err(|refused| refused.refusal)?;
        Ok(SheetStudy {
            map,
            settings,
            study,
            tables,
        })
    }

    // Puts a source to the study, to its end, and gives its refused items by their numbers. Only want of memory is an error.
    // Map and settings stay, by a clause each, since a caller's proof takes one or the other.
    pub fn feed_all<S: Source>(
        &mut self,
        heap: Global,
        source: &mut S,
    ) -> Result<Vec<RefusedLine>, AllocError>
        ensures through { IfOk result (λ v. PutThrough (M.meaning self.old.map) self.old self.new (S.items source.old) (S.answered source.old + 1) v.items) }
        ensures map { self.new.map ≡ self.old.map }
        ensures settings { self.new.settings ≡ self.old.settings }
        ensures answered { OnOk result (S.answered source.new ≡ S.answered source.old + length (S.items source.old)) }
    {
        let mut faults = Faults::none(heap);
        let fed = self.study.feed_all(
            source,
            self.tables.entries.as_mut_slice(),
            self.tables.known.as_mut_slice(),
            self.tables.marks.as_mut_slice(),
            self.tables.counters.as_mut_slice(),
            &mut faults,
        );
        // A sink hands a fault back for want of memory alone, and has no other error to give.
        fed.map_err(|_| AllocError)?;
        faults.lines(heap)
    }

    // Closes the study, and gives a row for each processor, level and number of ways. Only want of memory is an error.
    pub fn finish(self, heap: Global) -> Result<Vec<Row>, AllocError>
        ensures { IfOk result (λ v. (h : History) → HasAccepted (M.meaning self.map) self h → v.items ≡ rows (M.meaning self.map) h self.settings.levels self.settings.ways self.settings.processors) }
    {
        let SheetStudy {
            map,
            settings,
            study,
            tables,
        } = self;
        let sheet = ClosedSheet {
            map,
            settings,
            study: study.close(),
            tables: SeenTables {
                entries: tables.entries.as_slice(),
                known: tables.known.as_slice(),
                marks: tables.marks.as_slice(),
                counters: tables.counters.as_slice(),
            },
        };
        sheet.rows(heap)
    }
}
