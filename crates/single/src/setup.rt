ghost use Rattle.std.specs.Prelude.{◌≡◌, ◌+◌, ◌*◌, ◌^◌, ◌≤◌, None, Some, Ok, Err, if◌then◌else◌};
ghost use Rattle.places.specs.Parts.{start};
ghost use Rattle.single.specs.Calls.{tables_of, cache_frames, frames_needed, set_of, set_start, short, settings_refusal};
ghost use Rattle.single.specs.Lent.{lent};
ghost use Rattle.single.specs.Limits.{Limited};
ghost use Rattle.trace.specs.Refusals.{outside};
ghost use Rattle.trace.specs.declared.Refusal.TheVariants.{ShortTable, Processor};

use super::limits::check_settings;
use super::{Frame, LentTables, Settings};
use setmap::SetMap;
use trace::{Block, Refusal, Refused};

// What a cache is set up with: a map, and settings within their limits.
// Only what makes one, or is asked before there is one, takes the map and the settings apart.
// What a number must be in these settings stays asked for: a type for it would have to carry the settings along.
#[derive(Drop)]
pub(super) struct Setup<M: SetMap> {
    pub(super) map: M,
    pub(super) settings: Settings,
    ghost limited: { Limited settings },
}

// How many frames one processor has.
pub(super) fn cache_frames<M: SetMap>(map: &M, s: Settings) -> usize
    ensures value { result ≡ cache_frames (M.meaning map.now) s }
    ensures small { s.ways ≤ 16 → result ≤ 2 ^ 36 }
{
    map.sets(s.level) as usize * s.ways as usize
}

// Where processor p's counters begin: references, hits, drops.
// Not one function with the study's start of a part: a public one asks nothing of its callers, and would answer for no processor too.
pub(super) fn counters_start(p: u32) -> usize
    requires { 1 ≤ p }
    ensures value { result ≡ start 3 p }
    ensures small { result ≤ 2 ^ 34 }
{
    (p as usize - 1) * 3
}

// Where the frames of processor p's set of the block begin.
// By the settings and no method: behind a lent set-up they would be read anew for each processor that a write passes.
pub(super) fn set_start<M: SetMap>(map: &M, s: Settings, p: u32, block: Block) -> usize
    requires limited { Limited s }
    requires asked { (1 ≤ p) × (p ≤ s.processors) }
    ensures value { result ≡ set_start (M.meaning map.now) s p (set_of (M.meaning map.now) s block) }
    ensures within { result + s.ways ≤ frames_needed (M.meaning map.now) s }
{
    (p as usize - 1) * cache_frames(map, s)
        + map.set(s.level, block.number) as usize * s.ways as usize
}

impl<M: SetMap> Setup<M> {
    // The map and the settings; or the map back, and why no set-up takes the settings.
    pub(super) fn new(map: M, settings: Settings) -> Result<Setup<M>, Refused<M>>
        ensures { elim result [ Ok o ↦ (settings_refusal (M.meaning map) settings ≡ None) × (o.map ≡ map) × (o.settings ≡ settings) | Err x ↦ (settings_refusal (M.meaning map) settings ≡ Some x.refusal) × (x.map ≡ map) ] }
    {
        match check_settings(&map, settings) {
            Ok(()) => Ok(Setup { map, settings }),
            Err(refusal) => Err(Refused { map, refusal }),
        }
    }

    // The map back, with why.
    pub(super) fn refused(self, refusal: Refusal) -> Refused<M>
        ensures { (result.map ≡ self.map) × (result.refusal ≡ refusal) }
    {
        let Setup { map, settings: _ } = self;
        Refused { map, refusal }
    }

    // How many frames all processors have.
    pub(super) fn frames_needed(&self) -> usize
        ensures value { result ≡ frames_needed (M.meaning self.now.map) self.now.settings }
        ensures small { result ≤ 2 ^ 42 }
    {
        self.settings.processors as usize * cache_frames(&self.map, self.settings)
    }

    // How many counters all processors have.
    pub(super) fn counters_needed(&self) -> usize
        ensures { result ≡ self.now.settings.processors * 3 }
    {
        self.settings.processors as usize * 3
    }

    // Refuses tables that are too short.
    pub(super) fn check_tables(&self, tables: &LentTables<'_>) -> Result<(), Refusal>
        ensures { result ≡ if short (M.meaning self.now.map) self.now.settings (lent tables.now) then Err ShortTable else Ok tt }
    {
        self.check_slices(tables.frames, tables.counters)
    }

    // The same, of tables that are lent to be read.
    pub(super) fn check_slices(&self, frames: &[Frame], counters: &[u32]) -> Result<(), Refusal>
        ensures { result ≡ if short (M.meaning self.now.map) self.now.settings (tables_of frames.now counters.now) then Err ShortTable else Ok tt }
    {
        if frames.len() < self.frames_needed() || counters.len() < self.counters_needed() {
            return Err(Refusal::ShortTable);
        }
        Ok(())
    }

    // Refuses a processor that the cache does not have.
    pub(super) fn check_processor(&self, p: u32) -> Result<(), Refusal>
        ensures { result ≡ if outside 1 self.now.settings.processors p then Err Processor else Ok tt }
    {
        if !(1..=self.settings.processors).contains(&p) {
            return Err(Refusal::Processor);
        }
        Ok(())
    }
}
