ghost use Rattle.std.specs.Prelude.{◌≡◌, ◌+◌, true, false, length, drop, IsSome};
ghost use Rattle.order.specs.Order.{InOrder};
ghost use Rattle.study.specs.Limits.{Long};
ghost use Rattle.study.specs.Steps.{kept_of, NotShort};
ghost use Rattle.tables.specs.Calls.{Kept, Outcome, fed_answer, fed_first, fed, used_up};
ghost use Rattle.tables.specs.Lent.{lent, SameSlices};
ghost use Rattle.tables.specs.Tables.{tables_of};

use super::open::OpenStudy;
use order::hints::Hints;
use setmap::SetMap;
use stack::Entry;
use tables::{LentTables, Mark};
use trace::{Block, Fault, Fed, Layer, Refusal, Source};

// What a feed answers where its n-th item is a reference that was answered so.
fn answer_feed(n: u64, answer: Result<(), Refusal>) -> Result<Fed, Fault>
    ensures { result ≡ fed_answer n answer }
{
    match answer {
        Ok(()) => Ok(Fed::Accepted),
        Err(refusal) => Err(Fault {
            refusal,
            item: n,
            layer: Layer::Study,
        }),
    }
}

impl<M: SetMap> OpenStudy<M> {
    // The fault of a feed whose tables are too short, which is no item's: its item is 0, as docs/REFUSALS.md says.
    pub(super) fn refuse_short(&self, tables: &LentTables<'_>) -> Result<(), Fault>
        ensures { NotShort self.now.setup.settings (lent tables.now) result }
    {
        if self.setup.is_short(tables.look()) {
            return Err(Fault {
                refusal: Refusal::ShortTable,
                item: 0,
                layer: Layer::Study,
            });
        }
        Ok(())
    }

    // Puts the next item of a source to the study, on tables that are long enough. With hints, they are in order, and in order after it.
    pub(super) fn feed_next<S: Source>(
        &mut self,
        source: &mut S,
        hints: Option<&mut Hints>,
        tables: &mut LentTables<'_>,
    ) -> Result<Fed, Fault>
        requires long { Long self.old.setup.settings (lent tables.old) }
        requires ordered { IsSome hints → InOrder self.old.setup.settings self.old.known (lent tables.old) }
        ensures answer { result ≡ (fed_first (M.meaning self.old.setup.map) self.old.setup.settings (kept_of self.old.known self.old.accepted) (lent tables.old) (S.items source.old) (S.answered source.old)).answer }
        ensures kept { kept_of self.new.known self.new.accepted ≡ (fed_first (M.meaning self.old.setup.map) self.old.setup.settings (kept_of self.old.known self.old.accepted) (lent tables.old) (S.items source.old) (S.answered source.old)).kept }
        ensures tables { lent tables.new ≡ (fed_first (M.meaning self.old.setup.map) self.old.setup.settings (kept_of self.old.known self.old.accepted) (lent tables.old) (S.items source.old) (S.answered source.old)).tables }
        ensures same { SameSlices tables.old tables.new }
        ensures setup { self.new.setup ≡ self.old.setup }
        ensures items { S.items source.new ≡ drop 1 (S.items source.old) }
        ensures answered { S.answered source.new + length (S.items source.new) ≡ S.answered source.old + length (S.items source.old) }
        ensures ordered { IsSome hints.entry → InOrder self.new.setup.settings self.new.known (lent tables.new) }
    {
        match source.next()? {
            None => Ok(Fed::End),
            Some(r) => {
                let n = source.count();
                let answer = self.take_reference(r, hints, tables);
                answer_feed(n, answer)
            }
        }
    }

    // Puts the next item of a source to the study, on tables that a struct lends; too short tables leave the source as it was.
    pub fn feed_on<S: Source>(
        &mut self,
        source: &mut S,
        tables: &mut LentTables<'_>,
    ) -> Result<Fed, Fault>
        ensures answer { result ≡ (fed (M.meaning self.old.setup.map) self.old.setup.settings (kept_of self.old.known self.old.accepted) (lent tables.old) (S.items source.old) (S.answered source.old)).answer }
        ensures kept { kept_of self.new.known self.new.accepted ≡ (fed (M.meaning self.old.setup.map) self.old.setup.settings (kept_of self.old.known self.old.accepted) (lent tables.old) (S.items source.old) (S.answered source.old)).kept }
        ensures tables { lent tables.new ≡ (fed (M.meaning self.old.setup.map) self.old.setup.settings (kept_of self.old.known self.old.accepted) (lent tables.old) (S.items source.old) (S.answered source.old)).tables }
        ensures same { SameSlices tables.old tables.new }
        ensures setup { self.new.setup ≡ self.old.setup }
        ensures items { S.items source.new ≡ drop (used_up self.old.setup.settings (lent tables.old)) (S.items source.old) }
        ensures answered { S.answered source.new + length (S.items source.new) ≡ S.answered source.old + length (S.items source.old) }
    {
        self.refuse_short(tables)?;
        self.feed_next(source, None, tables)
    }

    // The same on tables lent one by one, as in `reference`.
    pub fn feed<S: Source>(
        &mut self,
        source: &mut S,
        entries: &mut [Entry],
        known: &mut [Block],
        marks: &mut [Mark],
        counters: &mut [u32],
    ) -> Result<Fed, Fault>
        ensures answer { result ≡ (fed (M.meaning self.old.setup.map) self.old.setup.settings (kept_of self.old.known self.old.accepted) (tables_of entries.old known.old marks.old counters.old) (S.items source.old) (S.answered source.old)).answer }
        ensures kept { kept_of self.new.known self.new.accepted ≡ (fed (M.meaning self.old.setup.map) self.old.setup.settings (kept_of self.old.known self.old.accepted) (tables_of entries.old known.old marks.old counters.old) (S.items source.old) (S.answered source.old)).kept }
        ensures tables { tables_of entries.new known.new marks.new counters.new ≡ (fed (M.meaning self.old.setup.map) self.old.setup.settings (kept_of self.old.known self.old.accepted) (tables_of entries.old known.old marks.old counters.old) (S.items source.old) (S.answered source.old)).tables }
        ensures setup { self.new.setup ≡ self.old.setup }
        ensures items { S.items source.new ≡ drop (used_up self.old.setup.settings (tables_of entries.old known.old marks.old counters.old)) (S.items source.old) }
        ensures answered { S.answered source.new + length (S.items source.new) ≡ S.answered source.old + length (S.items source.old) }
    {
        let mut tables = LentTables {
            entries,
            known,
            marks,
            counters,
        };
        self.feed_on(source, &mut tables)
    }
}
