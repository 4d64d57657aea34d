ghost use Rattle.std.specs.Prelude.{◌≡◌, ◌*◌, ◌≤◌, cond, length, replicate, Some, None, Ok, Err};
ghost use Rattle.places.specs.Parts.{put};
ghost use Rattle.tables.specs.Calls.{short, set_up_refusal};
ghost use Rattle.stack.specs.declared.Entry.TheVariants.{Empty as EmptyEntry};
ghost use Rattle.tables.specs.declared.Mark.TheVariants.{Never as NeverMark};
ghost use Rattle.tables.specs.Tables.{Tables, tables_of, row, cleared};
ghost use Rattle.theory.specs.Faithful.{Faithful};
ghost use Rattle.trace.specs.declared.Refusal.TheVariants.{ShortTable as ShortTables};

use super::limits::is_unlimited;
use super::open::OpenStudy;
use super::setup::Setup;
use setmap::{SetMap, levels_of};
use stack::Entry;
use tables::{Mark, SeenTables, Settings};
use trace::{Block, Refusal, Refused};

impl<M: SetMap> Setup<M> {
    // A map and settings that fit; only short tables refuse a set-up on them after that. Or the map back, and why.
    fn new(map: M, settings: Settings) -> Result<Setup<M>, Refused<M>>
        ensures { elim result [ Ok x ↦ (x.map ≡ map) × (x.settings ≡ settings) × ((t : Tables) → set_up_refusal (M.meaning map) settings t ≡ cond (short settings t) (Some ShortTables) None) | Err x ↦ (x.map ≡ map) × ((t : Tables) → set_up_refusal (M.meaning map) settings t ≡ Some x.refusal) ] }
    {
        if is_unlimited(settings) {
            return Err(Refused {
                map,
                refusal: Refusal::Setting,
            });
        }
        if levels_of(&map) < settings.levels {
            return Err(Refused {
                map,
                refusal: Refusal::Level,
            });
        }
        Ok(Setup { map, settings })
    }

    // Makes what a study uses of its tables empty, never and zero.
    fn clear(&self, entries: &mut [Entry], marks: &mut [Mark], counters: &mut [u32])
        requires entries { self.now.settings.processors * self.now.settings.entries ≤ length entries.old }
        requires marks { self.now.settings.processors * self.now.settings.blocks ≤ length marks.old }
        requires counters { self.now.settings.processors * row self.now.settings ≤ length counters.old }
        ensures entries { let n = self.now.settings.processors * self.now.settings.entries in entries.new ≡ put 0 n (replicate n EmptyEntry) entries.old }
        ensures marks { let n = self.now.settings.processors * self.now.settings.blocks in marks.new ≡ put 0 n (replicate n NeverMark) marks.old }
        ensures counters { let n = self.now.settings.processors * row self.now.settings in counters.new ≡ put 0 n (replicate n 0) counters.old }
    {
        let s = self.settings;
        let processors = s.processors as usize;
        entries[..processors * s.entries as usize].fill(Entry::Empty);
        marks[..processors * s.blocks as usize].fill(Mark::Never);
        counters[..processors * self.row_length()].fill(0);
    }
}

impl<M: SetMap> OpenStudy<M> {
    // A study with its tables cleared; or the map back, the tables as they were, and why.
    // It takes the tables one by one, since it only looks at the known blocks.
    pub fn set_up(
        map: M,
        s: Settings,
        entries: &mut [Entry],
        known: &[Block],
        marks: &mut [Mark],
        counters: &mut [u32],
    ) -> Result<OpenStudy<M>, Refused<M>>
        ensures answer { elim result [ Ok o ↦ (set_up_refusal (M.meaning map) s (tables_of entries.old known.now marks.old counters.old) ≡ None) × (o.setup.map ≡ map) × (o.setup.settings ≡ s) × (o.known ≡ 0) × (o.accepted ≡ 0) | Err x ↦ (set_up_refusal (M.meaning map) s (tables_of entries.old known.now marks.old counters.old) ≡ Some x.refusal) × (x.map ≡ map) ] }
        ensures tables { tables_of entries.new known.now marks.new counters.new ≡ elim result [ Ok o ↦ cleared s (tables_of entries.old known.now marks.old counters.old) | Err x ↦ tables_of entries.old known.now marks.old counters.old ] }
        ensures faithful { Faithful (M.meaning map) s }
    {
        let setup = Setup::new(map, s)?;
        let tables = SeenTables {
            entries,
            known,
            marks,
            counters,
        };
        if setup.is_short(tables) {
            let Setup { map, settings: _ } = setup;
            return Err(Refused {
                map,
                refusal: Refusal::ShortTable,
            });
        }
        setup.clear(entries, marks, counters);
        Ok(OpenStudy {
            setup,
            known: 0,
            accepted: 0,
        })
    }
}
