ghost use Rattle.std.specs.Prelude.{◌≡◌};
ghost use Rattle.single.specs.Calls.{tables_of, tallied};

use super::cache::SingleCache;
use super::setup::{Setup, counters_start};
use super::{Ended, Frame, Tallies};
use setmap::SetMap;
use trace::Refusal;

impl<M: SetMap> SingleCache<M> {
    // What has been counted of processor p's cache. A question asks no more of the tables than to be read.
    pub fn tally(&self, p: u32, frames: &[Frame], counters: &[u32]) -> Result<Tallies, Refusal>
        ensures { result ≡ tallied (M.meaning self.now.setup.map) self.now.setup.settings (tables_of frames.now counters.now) p }
    {
        self.setup.check_slices(frames, counters)?;
        self.setup.check_processor(p)?;
        let first = counters_start(p);
        Ok(Tallies {
            references: counters[first],
            hits: counters[first + 1],
            drops: counters[first + 2],
        })
    }

    // Ends the cache: its map back, and how many references it has accepted.
    pub fn end(self) -> Ended<M>
        ensures { (result.map ≡ self.setup.map) × (result.accepted ≡ self.accepted) }
    {
        let SingleCache { setup, accepted } = self;
        let Setup { map, settings: _ } = setup;
        Ended { map, accepted }
    }
}
