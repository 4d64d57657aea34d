ghost use Rattle.std.specs.Prelude.{◌≡◌, ◌+◌, ◌*◌, ◌^◌, ◌<◌, ◌≤◌, [], length, if◌then◌else◌, Some, None, slice_index};
ghost use Rattle.stack.specs.Stack.{within};
ghost use Rattle.stack.specs.Walk.{position_at};
ghost use Rattle.study.specs.Steps.{kept_of, refused_question};
ghost use Rattle.tables.specs.Calls.{held, summed, read_off, counted};
ghost use Rattle.tables.specs.Lent.{seen};
ghost use Rattle.tables.specs.Tables.{tables_of, row};
ghost use Rattle.study.specs.Limits.{IsProcessor};

use super::blocks::seek_block;
use super::closed::ClosedStudy;
use super::open::OpenStudy;
use super::setup::Setup;
use caches::Figures;
use setmap::SetMap;
use stack::walk::Walk;
use tables::SeenTables;
use tables::sums::sum_first;
use trace::{Block, Refusal};

// Whether a cache of so many ways reaches the position at a level that a walk found.
// Beside the one in scoring: that has the position, this one looks whether there is one.
fn reaches(walk: &Walk, level: u32, ways: u32) -> bool
    ensures { result ≡ within (position_at level walk.now) ways }
{
    walk.position(level as usize)
        .is_some_and(|k| k <= ways as usize)
}

impl<M: SetMap> Setup<M> {
    // The first refusal of a question. Processor, level and ways stay three numbers, as the public questions take them:
    // a struct of them would be made and taken apart at once.
    fn refuse_question(
        &self,
        p: u32,
        level: u32,
        ways: u32,
        tables: SeenTables<'_>,
    ) -> Result<(), Refusal>
        ensures { elim result [ Ok x ↦ refused_question self.now.settings (seen tables.entry) p level ways ≡ None | Err y ↦ refused_question self.now.settings (seen tables.entry) p level ways ≡ Some y ] }
    {
        let s = self.settings;
        if self.is_short(tables) {
            return Err(Refusal::ShortTable);
        }
        if p < 1 || p > s.processors {
            return Err(Refusal::Processor);
        }
        if level >= s.levels || ways < 1 || ways > s.ways {
            return Err(Refusal::Question);
        }
        Ok(())
    }

    // The sum of the first d counters of a level, in counters that begin at `from`.
    fn sum_level(&self, counters: &[u32], from: usize, level: u32, d: u32) -> u64
        requires { (level < self.now.settings.levels) × (d ≤ self.now.settings.ways) × (from + self.now.settings.levels * self.now.settings.ways ≤ length counters.now) × (from ≤ 2 ^ 27) }
        ensures value { result ≡ summed self.now.settings from level d counters.now }
        ensures small { result ≤ 2 ^ 36 }
    {
        let ways = self.settings.ways as usize;
        let at = from + level as usize * ways;
        sum_first(&counters[at..at + ways], d as usize)
    }

    // What is read off the counters of processor p, for so many ways at a level.
    fn read_figures(&self, counters: &[u32], p: u32, level: u32, ways: u32) -> Figures
        requires asked { (IsProcessor self.now.settings p) × (level < self.now.settings.levels) × (ways ≤ self.now.settings.ways) }
        requires long { self.now.settings.processors * row self.now.settings ≤ length counters.now }
        ensures { result ≡ read_off self.now.settings (tables_of [] [] [] counters.now) p level ways }
    {
        let at = self.part_start(self.row_length(), p);
        let references = counters[at];
        let cold = counters[at + 1];
        let lost = counters[at + 2];
        let hits = self.sum_level(counters, at + 3, level, ways);
        let cells = self.settings.levels as usize * self.settings.ways as usize;
        let drops = self.sum_level(counters, at + (3 + cells), level, ways);
        let found = hits + (u64::from(cold) + u64::from(lost));
        Figures {
            references,
            hits,
            drops,
            cold,
            lost,
            replaced: u64::from(references).saturating_sub(found),
        }
    }
}

impl<M: SetMap> OpenStudy<M> {
    // Whether processor p's cache of so many ways at a level holds a block.
    pub fn holds(
        &self,
        p: u32,
        level: u32,
        ways: u32,
        b: Block,
        tables: SeenTables<'_>,
    ) -> Result<bool, Refusal>
        ensures { result ≡ held (M.meaning self.now.setup.map) self.now.setup.settings (kept_of self.now.known self.now.accepted) (seen tables.entry) p level ways b }
    {
        self.setup.refuse_question(p, level, ways, tables)?;
        if seek_block(tables.known, self.known, b).is_none() {
            return Ok(false);
        }
        let walk = self.setup.walk_part(p, b, tables.entries);
        Ok(reaches(&walk, level, ways))
    }

    // Ends the references.
    pub fn close(self) -> ClosedStudy<M>
        ensures { result.setup ≡ self.setup }
    {
        let OpenStudy {
            setup,
            known: _,
            accepted: _,
        } = self;
        ClosedStudy { setup }
    }
}

impl<M: SetMap> ClosedStudy<M> {
    // What is counted of processor p's cache of so many ways at a level.
    pub fn count(
        &self,
        p: u32,
        level: u32,
        ways: u32,
        tables: SeenTables<'_>,
    ) -> Result<Figures, Refusal>
        ensures { result ≡ counted (M.meaning self.now.setup.map) self.now.setup.settings (seen tables.entry) p level ways }
    {
        self.setup.refuse_question(p, level, ways, tables)?;
        Ok(self.setup.read_figures(tables.counters, p, level, ways))
    }
}
