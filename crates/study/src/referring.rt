ghost use Rattle.std.specs.Prelude.{◌≡◌, ◌+◌, ◌-◌, ◌^◌, ◌<◌, ◌≤◌, length, take, IsSome};
ghost use Rattle.order.specs.Order.{Distinct, InOrder};
ghost use Rattle.study.specs.Limits.{Long};
ghost use Rattle.study.specs.Steps.{kept_of, known_then, Found};
ghost use Rattle.tables.specs.Calls.{Kept, Outcome, place_of, referenced};
ghost use Rattle.tables.specs.Lent.{lent, SameSlices};
ghost use Rattle.tables.specs.Tables.{tables_of};

use super::blocks::{Spot, seek_block};
use super::open::OpenStudy;
use order::hints::Hints;
use setmap::SetMap;
use stack::Entry;
use tables::{LentTables, Mark};
use trace::{Block, Reference, Refusal};

// How many blocks are known after a reference to the block at a place: one more where the place is new.
// A new block's place is the number known, so no flag is carried.
pub(super) fn known_after(known: u32, blocks: u32, place: usize) -> u32
    requires { (known ≤ blocks) × (place < blocks) }
    ensures value { result ≡ known_then known place }
    ensures within { result ≤ blocks }
{
    if place == known as usize {
        known + 1
    } else {
        known
    }
}

impl<M: SetMap> OpenStudy<M> {
    // The place of a block among the known ones, or their number; by hints, where there are any.
    fn place_of(&self, block: Block, hints: Option<&mut Hints>, known: &[Block]) -> usize
        requires within { self.now.known ≤ length known.now }
        requires distinct { IsSome hints → Distinct (take self.now.known known.now) }
        ensures value { result ≡ place_of block (take self.now.known known.now) }
        ensures bound { result ≤ self.now.known }
    {
        let place = match hints {
            Some(hints) => hints.find(&known[..self.known as usize], block),
            None => seek_block(known, self.known, block),
        };
        place.unwrap_or(self.known as usize)
    }

    // A reference's block and its place, or the first refusal; only full entries can refuse it after that.
    fn find_spot(
        &self,
        r: Reference,
        hints: Option<&mut Hints>,
        tables: &LentTables<'_>,
    ) -> Result<Spot, Refusal>
        requires long { Long self.now.setup.settings (lent tables.now) }
        requires ordered { IsSome hints → InOrder self.now.setup.settings self.now.known (lent tables.now) }
        ensures { Found (M.meaning self.now.setup.map) self.now.setup.settings (kept_of self.now.known self.now.accepted) (lent tables.now) r result }
    {
        let s = self.setup.settings;
        if self.accepted == u32::MAX {
            return Err(Refusal::References);
        }
        if r.processor < 1 || r.processor > s.processors {
            return Err(Refusal::Processor);
        }
        let block = Block::of(r.address, s.shift);
        let place = self.place_of(block, hints, tables.known);
        if place == self.known as usize && self.known == s.blocks {
            return Err(Refusal::Blocks);
        }
        Ok(Spot { block, place })
    }

    // Counts an accepted reference to the block at a place of the known ones.
    // Room for one more is asked for: a count that stayed at the largest would be wrong without a word.
    fn keep(&mut self, place: usize)
        requires { (place < self.old.setup.settings.blocks) × (self.old.accepted < 2 ^ 32 - 1) }
        ensures known { self.new.known ≡ known_then self.old.known place }
        ensures accepted { self.new.accepted ≡ self.old.accepted + 1 }
        ensures setup { self.new.setup ≡ self.old.setup }
    {
        self.known = known_after(self.known, self.setup.settings.blocks, place);
        self.accepted += 1;
    }

    // A reference to tables that are long enough. With hints, they are in order, and in order after it.
    // Answer, kept and tables are three clauses, each of which the callers use by its name.
    pub(super) fn take_reference(
        &mut self,
        r: Reference,
        hints: Option<&mut Hints>,
        tables: &mut LentTables<'_>,
    ) -> Result<(), Refusal>
        requires long { Long self.old.setup.settings (lent tables.old) }
        requires ordered { IsSome hints → InOrder self.old.setup.settings self.old.known (lent tables.old) }
        ensures answer { result ≡ (referenced (M.meaning self.old.setup.map) self.old.setup.settings (kept_of self.old.known self.old.accepted) (lent tables.old) r).answer }
        ensures kept { kept_of self.new.known self.new.accepted ≡ (referenced (M.meaning self.old.setup.map) self.old.setup.settings (kept_of self.old.known self.old.accepted) (lent tables.old) r).kept }
        ensures tables { lent tables.new ≡ (referenced (M.meaning self.old.setup.map) self.old.setup.settings (kept_of self.old.known self.old.accepted) (lent tables.old) r).tables }
        ensures same { SameSlices tables.old tables.new }
        ensures setup { self.new.setup ≡ self.old.setup }
        ensures ordered { IsSome hints.entry → InOrder self.new.setup.settings self.new.known (lent tables.new) }
    {
        let ordered = hints.is_some();
        let spot = self.find_spot(r, hints, tables)?;
        self.setup.apply(r, spot, self.known, ordered, tables)?;
        self.keep(spot.place);
        Ok(())
    }

    // A reference on tables that a struct lends, which is accepted or leaves everything as it was.
    pub fn reference_on(&mut self, r: Reference, tables: &mut LentTables<'_>) -> Result<(), Refusal>
        ensures answer { result ≡ (referenced (M.meaning self.old.setup.map) self.old.setup.settings (kept_of self.old.known self.old.accepted) (lent tables.old) r).answer }
        ensures kept { kept_of self.new.known self.new.accepted ≡ (referenced (M.meaning self.old.setup.map) self.old.setup.settings (kept_of self.old.known self.old.accepted) (lent tables.old) r).kept }
        ensures tables { lent tables.new ≡ (referenced (M.meaning self.old.setup.map) self.old.setup.settings (kept_of self.old.known self.old.accepted) (lent tables.old) r).tables }
        ensures same { SameSlices tables.old tables.new }
        ensures setup { self.new.setup ≡ self.old.setup }
    {
        if self.setup.is_short(tables.look()) {
            return Err(Refusal::ShortTable);
        }
        self.take_reference(r, None, tables)
    }

    // The same on tables lent one by one. What a list holds after a call is known where the call is lent its slice,
    // and not where a struct made beside the call is.
    pub fn reference(
        &mut self,
        r: Reference,
        entries: &mut [Entry],
        known: &mut [Block],
        marks: &mut [Mark],
        counters: &mut [u32],
    ) -> Result<(), Refusal>
        ensures answer { result ≡ (referenced (M.meaning self.old.setup.map) self.old.setup.settings (kept_of self.old.known self.old.accepted) (tables_of entries.old known.old marks.old counters.old) r).answer }
        ensures kept { kept_of self.new.known self.new.accepted ≡ (referenced (M.meaning self.old.setup.map) self.old.setup.settings (kept_of self.old.known self.old.accepted) (tables_of entries.old known.old marks.old counters.old) r).kept }
        ensures tables { tables_of entries.new known.new marks.new counters.new ≡ (referenced (M.meaning self.old.setup.map) self.old.setup.settings (kept_of self.old.known self.old.accepted) (tables_of entries.old known.old marks.old counters.old) r).tables }
        ensures setup { self.new.setup ≡ self.old.setup }
    {
        let mut tables = LentTables {
            entries,
            known,
            marks,
            counters,
        };
        self.reference_on(r, &mut tables)
    }
}
