ghost use Rattle.std.specs.Prelude.{◌≡◌, ◌+◌, true, false, length, drop};
ghost use Rattle.order.specs.Order.{InOrder};
ghost use Rattle.study.specs.Limits.{Long};
ghost use Rattle.study.specs.Steps.{kept_of, HandedOn};
ghost use Rattle.tables.specs.Bulk.{Standing, standing_of, FedThrough};
ghost use Rattle.tables.specs.Calls.{Kept, Outcome, fed_first, short};
ghost use Rattle.tables.specs.Lent.{lent, SameSlices};
ghost use Rattle.tables.specs.Tables.{tables_of};

use super::open::OpenStudy;
use order::hints::Hints;
use setmap::SetMap;
use stack::Entry;
use tables::{LentTables, Mark};
use trace::{Block, Fault, Fed, Sink, Source};

// Hands a feed's fault on; after one, the source goes on as after an accepted item.
fn hand_on<K: Sink>(answer: Result<Fed, Fault>, faults: &mut K) -> Result<Fed, Fault>
    ensures { HandedOn (K.taken faults.old) answer result (K.taken faults.new) }
{
    match answer {
        Ok(fed) => Ok(fed),
        Err(fault) => {
            faults.take(fault)?;
            Ok(Fed::Accepted)
        }
    }
}

impl<M: SetMap> OpenStudy<M> {
    // A feed, by the hints where the tables are in order; what it leaves stands in a clause each, as in `take_reference`.
    // A flag beside the hints: one option of the two would be copied whenever it is made.
    fn feed_in_bulk<S: Source>(
        &mut self,
        source: &mut S,
        ordered: bool,
        hints: &mut Hints,
        tables: &mut LentTables<'_>,
    ) -> Result<Fed, Fault>
        requires long { Long self.old.setup.settings (lent tables.old) }
        requires ordered { ordered ≡ true → InOrder self.old.setup.settings self.old.known (lent tables.old) }
        ensures answer { result ≡ (fed_first (M.meaning self.old.setup.map) self.old.setup.settings (kept_of self.old.known self.old.accepted) (lent tables.old) (S.items source.old) (S.answered source.old)).answer }
        ensures kept { kept_of self.new.known self.new.accepted ≡ (fed_first (M.meaning self.old.setup.map) self.old.setup.settings (kept_of self.old.known self.old.accepted) (lent tables.old) (S.items source.old) (S.answered source.old)).kept }
        ensures tables { lent tables.new ≡ (fed_first (M.meaning self.old.setup.map) self.old.setup.settings (kept_of self.old.known self.old.accepted) (lent tables.old) (S.items source.old) (S.answered source.old)).tables }
        ensures same { SameSlices tables.old tables.new }
        ensures setup { self.new.setup ≡ self.old.setup }
        ensures items { S.items source.new ≡ drop 1 (S.items source.old) }
        ensures answered { S.answered source.new + length (S.items source.new) ≡ S.answered source.old + length (S.items source.old) }
        ensures ordered { ordered ≡ true → InOrder self.new.setup.settings self.new.known (lent tables.new) }
    {
        if ordered {
            self.feed_next(source, Some(hints), tables)
        } else {
            self.feed_next(source, None, tables)
        }
    }

    // Feeds until the source ends, on tables that are long enough. This is asked twice: `through` says it by `short`, each feed asks for `Long`.
    fn feed_to_end<S: Source, K: Sink>(
        &mut self,
        source: &mut S,
        tables: &mut LentTables<'_>,
        faults: &mut K,
    ) -> Result<(), Fault>
        requires enough { short self.old.setup.settings (lent tables.old) ≡ false }
        requires long { Long self.old.setup.settings (lent tables.old) }
        ensures through { FedThrough (M.meaning self.old.setup.map) self.old.setup.settings (standing_of (kept_of self.old.known self.old.accepted) (lent tables.old) (S.items source.old) (S.answered source.old) (K.taken faults.old)) (standing_of (kept_of self.new.known self.new.accepted) (lent tables.new) (S.items source.new) (S.answered source.new) (K.taken faults.new)) result }
        ensures same { SameSlices tables.old tables.new }
        ensures setup { self.new.setup ≡ self.old.setup }
    {
        let mut hints = Hints::none();
        let ordered = self.setup.look_for_order(self.known, &mut hints, tables);
        loop {
            let answer = self.feed_in_bulk(source, ordered, &mut hints, tables);
            match hand_on(answer, faults)? {
                Fed::End => return Ok(()),
                Fed::Accepted => {}
            }
        }
    }

    // Feeds until the source ends, on tables that a struct lends, and hands each fault on; too short tables leave all as it was.
    pub fn feed_all_on<S: Source, K: Sink>(
        &mut self,
        source: &mut S,
        tables: &mut LentTables<'_>,
        faults: &mut K,
    ) -> Result<(), Fault>
        ensures through { FedThrough (M.meaning self.old.setup.map) self.old.setup.settings (standing_of (kept_of self.old.known self.old.accepted) (lent tables.old) (S.items source.old) (S.answered source.old) (K.taken faults.old)) (standing_of (kept_of self.new.known self.new.accepted) (lent tables.new) (S.items source.new) (S.answered source.new) (K.taken faults.new)) result }
        ensures same { SameSlices tables.old tables.new }
        ensures setup { self.new.setup ≡ self.old.setup }
    {
        self.refuse_short(tables)?;
        self.feed_to_end(source, tables, faults)
    }

    // The same on tables lent one by one, as in `reference`.
    pub fn feed_all<S: Source, K: Sink>(
        &mut self,
        source: &mut S,
        entries: &mut [Entry],
        known: &mut [Block],
        marks: &mut [Mark],
        counters: &mut [u32],
        faults: &mut K,
    ) -> Result<(), Fault>
        ensures through { FedThrough (M.meaning self.old.setup.map) self.old.setup.settings (standing_of (kept_of self.old.known self.old.accepted) (tables_of entries.old known.old marks.old counters.old) (S.items source.old) (S.answered source.old) (K.taken faults.old)) (standing_of (kept_of self.new.known self.new.accepted) (tables_of entries.new known.new marks.new counters.new) (S.items source.new) (S.answered source.new) (K.taken faults.new)) result }
        ensures setup { self.new.setup ≡ self.old.setup }
    {
        let mut tables = LentTables {
            entries,
            known,
            marks,
            counters,
        };
        self.feed_all_on(source, &mut tables, faults)
    }
}
