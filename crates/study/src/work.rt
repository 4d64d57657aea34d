ghost use Rattle.std.specs.Prelude.{◌≡◌, ◌<◌, ◌≤◌, ◌==◌, ◌||◌, true, not, cond, IfSome, List, length, take, slice_index_or, slice_set};
ghost use Rattle.order.specs.Order.{InOrder, is_held};
ghost use Rattle.places.specs.Parts.{more};
ghost use Rattle.setmap.specs.Mapping.{Mapping};
ghost use Rattle.stack.specs.declared.Entry.{Entry as StackEntry};
ghost use Rattle.stack.specs.Stack.{stack};
ghost use Rattle.stack.specs.Walk.{Walked};
ghost use Rattle.study.specs.Limits.{IsProcessor, Long};
ghost use Rattle.study.specs.Steps.{UnlessFull, KnownInOrder, LeftInOrder};
ghost use Rattle.tables.specs.Calls.{marked, place_of, scores, past_counter, no_more_entries, own_reference, others_write_to, others_write_all, applied};
ghost use Rattle.tables.specs.declared.Event.TheVariants.{Own as OwnEvent};
ghost use Rattle.tables.specs.declared.Mark.TheVariants.{Never as NeverMark};
ghost use Rattle.tables.specs.Lent.{lent, SameSlices};
ghost use Rattle.tables.specs.Tables.{mark_at, references_at, hits_from};
ghost use Rattle.trace.specs.Items.{block_of};

use super::blocks::Spot;
use super::referring::known_after;
use super::setup::Setup;
use order::rows::is_held;
use setmap::SetMap;
use stack::walk::Walk;
use tables::marks::note;
use tables::{Event, LentTables, Mark};
use trace::{Block, Operation, Reference, Refusal};

// `Long` and the order stay asked for: a struct that lends the tables with them would have to show them anew after each write.
impl<M: SetMap> Setup<M> {
    // What processor p's own reference to a block leaves besides the entries.
    fn record_own(
        &self,
        p: u32,
        spot: Spot,
        walk: &Walk,
        known: &mut [Block],
        marks: &mut [Mark],
        counters: &mut [u32],
    )
        requires { (IsProcessor self.now.settings p) × (spot.place < self.now.settings.blocks) × (self.now.settings.blocks ≤ length known.old) }
        ensures known { known.new ≡ slice_set known.old spot.place spot.block }
        ensures marks { marks.new ≡ slice_set marks.old (mark_at self.now.settings p spot.place) (marked (slice_index_or marks.old (mark_at self.now.settings p spot.place) NeverMark) OwnEvent) }
        ensures counters { (m : Mapping) (es : List StackEntry) → Walked m spot.block es walk.now → counters.new ≡ scores m self.now.settings (hits_from self.now.settings p) spot.block (stack es) self.now.settings.levels (past_counter self.now.settings p (slice_index_or marks.old (mark_at self.now.settings p spot.place) NeverMark) (more (references_at self.now.settings p) counters.old)) }
    {
        let mark = note(marks, self.mark_at(p, spot.place), Event::Own);
        self.count_own(counters, p, mark, walk);
        known[spot.place] = spot.block;
    }

    // Processor p's own reference to a block, where its entries hold it.
    fn refer(&self, p: u32, spot: Spot, tables: &mut LentTables<'_>) -> Result<(), Refusal>
        requires limits { (IsProcessor self.now.settings p) × (spot.place < self.now.settings.blocks) }
        requires long { Long self.now.settings (lent tables.old) }
        ensures referred { UnlessFull (no_more_entries (M.meaning self.now.map) self.now.settings (lent tables.old) p spot.block) (lent tables.old) (own_reference (M.meaning self.now.map) self.now.settings p spot.block spot.place (lent tables.old)) result (lent tables.new) }
        ensures same { SameSlices tables.old tables.new }
    {
        match self.touch_part(p, spot.block, tables.entries) {
            None => Err(Refusal::Entries),
            Some(walk) => {
                self.record_own(p, spot, &walk, tables.known, tables.marks, tables.counters);
                Ok(())
            }
        }
    }

    // What another's write of a block does to processor p.
    fn write_to(&self, p: u32, spot: Spot, tables: &mut LentTables<'_>)
        requires limits { (IsProcessor self.now.settings p) × (spot.place < self.now.settings.blocks) }
        requires long { Long self.now.settings (lent tables.old) }
        ensures written { lent tables.new ≡ others_write_to (M.meaning self.now.map) self.now.settings p spot.block spot.place (lent tables.old) }
        ensures same { SameSlices tables.old tables.new }
    {
        let walk = self.lose_part(p, spot.block, tables.entries);
        note(
            tables.marks,
            self.mark_at(p, spot.place),
            Event::OthersWrite,
        );
        self.count_drops(tables.counters, p, &walk);
    }

    // Whether processor p may have the block at a place of the known ones. In order, a stack whose mark is not held does not.
    fn may_have(&self, p: u32, place: usize, ordered: bool, tables: &LentTables<'_>) -> bool
        requires { (IsProcessor self.now.settings p) × (place < self.now.settings.blocks) }
        ensures { result ≡ (not ordered || is_held (slice_index_or tables.now.marks.now (mark_at self.now.settings p place) NeverMark)) }
    {
        !ordered || is_held(tables.marks, self.mark_at(p, place))
    }

    // What a write by processor w of a known block does to processor p, if it is another; in order with so many blocks known, if any.
    fn write_past(
        &self,
        w: u32,
        p: u32,
        spot: Spot,
        ordered: Option<u32>,
        tables: &mut LentTables<'_>,
    )
        requires limits { (IsProcessor self.now.settings p) × (spot.place < self.now.settings.blocks) }
        requires long { Long self.now.settings (lent tables.old) }
        requires ordered { IfSome ordered (λ n. KnownInOrder self.now.settings n spot (lent tables.old)) }
        ensures written { lent tables.new ≡ cond (p == w) (lent tables.old) (others_write_to (M.meaning self.now.map) self.now.settings p spot.block spot.place (lent tables.old)) }
        ensures same { SameSlices tables.old tables.new }
        ensures ordered { IfSome ordered (λ n. KnownInOrder self.now.settings n spot (lent tables.new)) }
    {
        if p != w && self.may_have(p, spot.place, ordered.is_some(), tables) {
            self.write_to(p, spot, tables);
        }
    }

    // A write by processor w of a known block, put to all the others; in order with so many blocks known, if any.
    fn write_all(&self, w: u32, spot: Spot, ordered: Option<u32>, tables: &mut LentTables<'_>)
        requires limits { spot.place < self.now.settings.blocks }
        requires long { Long self.now.settings (lent tables.old) }
        requires ordered { IfSome ordered (λ n. KnownInOrder self.now.settings n spot (lent tables.old)) }
        ensures written { lent tables.new ≡ others_write_all (M.meaning self.now.map) self.now.settings w spot.block spot.place self.now.settings.processors (lent tables.old) }
        ensures same { SameSlices tables.old tables.new }
        ensures ordered { IfSome ordered (λ n. KnownInOrder self.now.settings n spot (lent tables.new)) }
    {
        for p in 1..=self.settings.processors {
            self.write_past(w, p, spot, ordered, tables);
        }
    }

    // A reference where n blocks are known, if the entries hold it; tables in order are in order after it.
    pub(super) fn apply(
        &self,
        r: Reference,
        spot: Spot,
        n: u32,
        ordered: bool,
        tables: &mut LentTables<'_>,
    ) -> Result<(), Refusal>
        requires limits { (IsProcessor self.now.settings r.processor) × (spot.place < self.now.settings.blocks) × (n ≤ self.now.settings.blocks) }
        requires block { spot.block ≡ block_of self.now.settings.shift r.address }
        requires place { spot.place ≡ place_of spot.block (take n tables.old.known.now) }
        requires long { Long self.now.settings (lent tables.old) }
        requires ordered { ordered ≡ true → InOrder self.now.settings n (lent tables.old) }
        ensures applied { UnlessFull (no_more_entries (M.meaning self.now.map) self.now.settings (lent tables.old) r.processor (block_of self.now.settings.shift r.address)) (lent tables.old) (applied (M.meaning self.now.map) self.now.settings r spot.place (lent tables.old)) result (lent tables.new) }
        ensures same { SameSlices tables.old tables.new }
        ensures ordered { ordered ≡ true → LeftInOrder self.now.settings n spot result (lent tables.new) }
    {
        self.refer(r.processor, spot, tables)?;
        match r.operation {
            Operation::Read | Operation::Fetch => {}
            Operation::Write => {
                let n = known_after(n, self.settings.blocks, spot.place);
                self.write_all(r.processor, spot, ordered.then_some(n), tables)
            }
        }
        Ok(())
    }
}
