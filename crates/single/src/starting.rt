ghost use Rattle.std.specs.Prelude.{◌≡◌, Some, None, Ok, Err};
ghost use Rattle.single.specs.Calls.{cleared, set_up_refusal, sized, tables_of};
ghost use Rattle.single.specs.Lent.{lent, SameSlices};
ghost use Rattle.single.specs.Limits.{Long};
ghost use Rattle.single.specs.Runs.{AsSeparate};

use super::cache::SingleCache;
use super::limits::check_settings;
use super::setup::{Setup, cache_frames};
use super::{Frame, LentTables, Settings, TableSizes};
use setmap::SetMap;
use trace::{Refusal, Refused};

// The sizes of the tables to lend, or why a set-up would refuse the settings whatever the tables.
pub fn table_sizes<M: SetMap>(map: &M, s: Settings) -> Result<TableSizes, Refusal>
    ensures { result ≡ sized (M.meaning map.now) s }
{
    check_settings(map, s)?;
    let processors = s.processors as usize;
    Ok(TableSizes {
        frames: processors * cache_frames(map, s),
        counters: processors * 3,
    })
}

impl<M: SetMap> Setup<M> {
    // Empties and zeroes what a cache uses of the tables.
    fn clear(&self, tables: &mut LentTables<'_>)
        requires { Long (M.meaning self.now.map) self.now.settings (lent tables.old) }
        ensures done { lent tables.new ≡ cleared (M.meaning self.now.map) self.now.settings (lent tables.old) }
        ensures same { SameSlices tables.old tables.new }
    {
        tables.frames[0..self.frames_needed()].fill(None);
        tables.counters[0..self.counters_needed()].fill(0);
    }
}

impl<M: SetMap> SingleCache<M> {
    // A cache with its tables, which a struct lends, cleared; or the map back, the tables as they were, and why.
    pub fn set_up_on(
        map: M,
        s: Settings,
        tables: &mut LentTables<'_>,
    ) -> Result<SingleCache<M>, Refused<M>>
        ensures answer { elim result [ Ok o ↦ (set_up_refusal (M.meaning map) s (lent tables.old) ≡ None) × (o.setup.map ≡ map) × (o.setup.settings ≡ s) × (o.accepted ≡ 0) | Err x ↦ (set_up_refusal (M.meaning map) s (lent tables.old) ≡ Some x.refusal) × (x.map ≡ map) ] }
        ensures tables { lent tables.new ≡ elim result [ Ok o ↦ cleared (M.meaning map) s (lent tables.old) | Err x ↦ lent tables.old ] }
        ensures same { SameSlices tables.old tables.new }
        ensures faithful { AsSeparate (M.meaning map) s }
    {
        let setup = Setup::new(map, s)?;
        if let Err(refusal) = setup.check_tables(tables) {
            return Err(setup.refused(refusal));
        }
        setup.clear(tables);
        Ok(SingleCache { setup, accepted: 0 })
    }

    // The same on tables lent one by one. What a list holds after a call is known where the call is lent its slice,
    // and not where a struct made beside the call is.
    pub fn set_up(
        map: M,
        s: Settings,
        frames: &mut [Frame],
        counters: &mut [u32],
    ) -> Result<SingleCache<M>, Refused<M>>
        ensures answer { elim result [ Ok o ↦ (set_up_refusal (M.meaning map) s (tables_of frames.old counters.old) ≡ None) × (o.setup.map ≡ map) × (o.setup.settings ≡ s) × (o.accepted ≡ 0) | Err x ↦ (set_up_refusal (M.meaning map) s (tables_of frames.old counters.old) ≡ Some x.refusal) × (x.map ≡ map) ] }
        ensures tables { tables_of frames.new counters.new ≡ elim result [ Ok o ↦ cleared (M.meaning map) s (tables_of frames.old counters.old) | Err x ↦ tables_of frames.old counters.old ] }
        ensures faithful { AsSeparate (M.meaning map) s }
    {
        let mut tables = LentTables { frames, counters };
        SingleCache::set_up_on(map, s, &mut tables)
    }
}
