ghost use Rattle.std.specs.Prelude.{◌≡◌, ◌<◌, ◌≤◌, false, IfOk, Ok};
ghost use Rattle.sheets.specs.Sheets.{rows};
ghost use Rattle.sheets.specs.Steps.{Shows};
ghost use Rattle.tables.specs.Calls.{short, counted};
ghost use Rattle.tables.specs.Lent.{seen};

use super::Row;
use caches::Figures;
use setmap::SetMap;
use std::alloc::{AllocError, Global};
use study::ClosedStudy;
use tables::{SeenTables, Settings};

// A closed study with the tables that it was fed on. Its map and settings stand beside it as in the open one, since the study shows them to no caller.
#[derive(Drop)]
pub(super) struct ClosedSheet<'a, M: SetMap> {
    pub(super) map: M,
    pub(super) settings: Settings,
    pub(super) study: ClosedStudy<M>,
    pub(super) tables: SeenTables<'a>,
    ghost same_map: { map ≡ study.setup.map },
    ghost same_settings: { settings ≡ study.setup.settings },
    ghost long: { short settings (seen tables) ≡ false },
}

impl<'a, M: SetMap> ClosedSheet<'a, M> {
    // The figures of a cache of the study. The loops below say that there is one; a type for that would be made and taken apart at once.
    fn figures(&self, p: u32, level: u32, ways: u32) -> Figures
        requires asked { (1 ≤ p) × (p ≤ self.now.settings.processors) × (level < self.now.settings.levels) × (1 ≤ ways) × (ways ≤ self.now.settings.ways) }
        ensures { counted (M.meaning self.now.map) self.now.settings (seen self.now.tables) p level ways ≡ Ok result }
    {
        match self.study.count(p, level, ways, self.tables) {
            Ok(figures) => figures,
            Err(_) => unreachable(),
        }
    }

    // A row for each processor, level and number of ways.
    pub(super) fn rows(&self, heap: Global) -> Result<Vec<Row>, AllocError>
        ensures { IfOk result (λ v. Shows (M.meaning self.now.map) self.now.settings (seen self.now.tables) (λ h. v.items ≡ rows (M.meaning self.now.map) h self.now.settings.levels self.now.settings.ways self.now.settings.processors)) }
    {
        let s = self.settings;
        let mut rows = Vec::new(heap);
        for p in 1..=s.processors {
            for level in 0..s.levels {
                let sets = self.map.sets(level);
                for ways in 1..=s.ways {
                    rows.push(Row {
                        processor: p,
                        level,
                        sets,
                        ways,
                        figures: self.figures(p, level, ways),
                    })?;
                }
            }
        }
        Ok(rows)
    }
}
