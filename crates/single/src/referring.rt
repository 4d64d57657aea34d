ghost use Rattle.std.specs.Prelude.{◌≡◌, ◌≤◌};
ghost use Rattle.single.specs.Calls.{Outcome, own_reference, others_write_to, others_write_all, applied, reference_refusal, referenced, tables_of};
ghost use Rattle.single.specs.Lent.{lent, SameSlices};
ghost use Rattle.single.specs.Limits.{Long};
ghost use Rattle.trace.specs.Refusals.{unless_refused};

use super::cache::SingleCache;
use super::lists::{lose, touch};
use super::setup::{Setup, counters_start, set_start};
use super::{Frame, LentTables, Settings};
use places::bump;
use setmap::SetMap;
use trace::{Block, Operation, Reference, Refusal};

// `Long` stays asked for: a struct that lends the tables with it would have to show it anew after each write into them.
impl<M: SetMap> Setup<M> {
    // Processor p's own reference.
    fn refer(&self, p: u32, block: Block, tables: &mut LentTables<'_>)
        requires { (1 ≤ p) × ((p ≤ self.now.settings.processors) × (Long (M.meaning self.now.map) self.now.settings (lent tables.old))) }
        ensures done { lent tables.new ≡ own_reference (M.meaning self.now.map) self.now.settings p block (lent tables.old) }
        ensures same { SameSlices tables.old tables.new }
    {
        let at = set_start(&self.map, self.settings, p, block);
        let end = at + self.settings.ways as usize;
        let hit = touch(&mut tables.frames[at..end], block);
        let first = counters_start(p);
        bump(tables.counters, first);
        if hit {
            bump(tables.counters, first + 1);
        }
    }

    // What another's write does to processor p, in settings that are these.
    fn write_to(&self, s: Settings, p: u32, block: Block, tables: &mut LentTables<'_>)
        requires settings { s ≡ self.now.settings }
        requires asked { (1 ≤ p) × ((p ≤ self.now.settings.processors) × (Long (M.meaning self.now.map) self.now.settings (lent tables.old))) }
        ensures done { lent tables.new ≡ others_write_to (M.meaning self.now.map) self.now.settings p block (lent tables.old) }
        ensures same { SameSlices tables.old tables.new }
    {
        let at = set_start(&self.map, s, p, block);
        let end = at + s.ways as usize;
        if lose(&mut tables.frames[at..end], block) {
            bump(tables.counters, counters_start(p) + 2);
        }
    }

    // A write by processor w, put to all the others.
    fn write_all(&self, w: u32, block: Block, tables: &mut LentTables<'_>)
        requires { Long (M.meaning self.now.map) self.now.settings (lent tables.old) }
        ensures done { lent tables.new ≡ others_write_all (M.meaning self.now.map) self.now.settings w block self.now.settings.processors (lent tables.old) }
        ensures same { SameSlices tables.old tables.new }
    {
        let s = self.settings;
        for p in 1..=s.processors {
            if p != w {
                self.write_to(s, p, block, tables);
            }
        }
    }

    // An accepted reference.
    fn apply(&self, r: Reference, tables: &mut LentTables<'_>)
        requires { (1 ≤ r.processor) × ((r.processor ≤ self.now.settings.processors) × (Long (M.meaning self.now.map) self.now.settings (lent tables.old))) }
        ensures done { lent tables.new ≡ applied (M.meaning self.now.map) self.now.settings (lent tables.old) r }
        ensures same { SameSlices tables.old tables.new }
    {
        let block = Block::of(r.address, self.settings.shift);
        self.refer(r.processor, block, tables);
        match r.operation {
            Operation::Read => {}
            Operation::Write => self.write_all(r.processor, block, tables),
            Operation::Fetch => {}
        }
    }
}

impl<M: SetMap> SingleCache<M> {
    // The first refusal of a reference by processor p, if there is one.
    fn check_reference(&self, p: u32, tables: &LentTables<'_>) -> Result<(), Refusal>
        ensures { result ≡ unless_refused (reference_refusal (M.meaning self.now.setup.map) self.now.setup.settings self.now.accepted (lent tables.now) p) tt }
    {
        self.setup.check_tables(tables)?;
        if self.accepted == u32::MAX {
            return Err(Refusal::References);
        }
        self.setup.check_processor(p)
    }

    // A reference on tables that a struct lends, which is accepted or leaves everything as it was.
    pub fn reference_on(&mut self, r: Reference, tables: &mut LentTables<'_>) -> Result<(), Refusal>
        ensures answer { result ≡ (referenced (M.meaning self.old.setup.map) self.old.setup.settings self.old.accepted (lent tables.old) r).answer }
        ensures accepted { self.new.accepted ≡ (referenced (M.meaning self.old.setup.map) self.old.setup.settings self.old.accepted (lent tables.old) r).accepted }
        ensures tables { lent tables.new ≡ (referenced (M.meaning self.old.setup.map) self.old.setup.settings self.old.accepted (lent tables.old) r).tables }
        ensures same { SameSlices tables.old tables.new }
        ensures setup { self.new.setup ≡ self.old.setup }
    {
        self.check_reference(r.processor, tables)?;
        self.setup.apply(r, tables);
        self.accepted += 1;
        Ok(())
    }

    // The same on tables lent one by one, as in `set_up`.
    pub fn reference(
        &mut self,
        r: Reference,
        frames: &mut [Frame],
        counters: &mut [u32],
    ) -> Result<(), Refusal>
        ensures answer { result ≡ (referenced (M.meaning self.old.setup.map) self.old.setup.settings self.old.accepted (tables_of frames.old counters.old) r).answer }
        ensures accepted { self.new.accepted ≡ (referenced (M.meaning self.old.setup.map) self.old.setup.settings self.old.accepted (tables_of frames.old counters.old) r).accepted }
        ensures tables { tables_of frames.new counters.new ≡ (referenced (M.meaning self.old.setup.map) self.old.setup.settings self.old.accepted (tables_of frames.old counters.old) r).tables }
        ensures setup { self.new.setup ≡ self.old.setup }
    {
        let mut tables = LentTables { frames, counters };
        self.reference_on(r, &mut tables)
    }
}
