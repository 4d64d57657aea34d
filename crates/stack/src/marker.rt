ghost use Rattle.std.specs.Prelude.{◌≡◌, not};
ghost use Rattle.setmap.specs.Mapping.{shared};
ghost use Rattle.levels.specs.Levels.{below, both, less, is_none};

use levels::Levels;
use setmap::SetMap;
use trace::Block;

// A marker above a block: the levels at which it counts for the block, those of them that it gives up, and those that it keeps.
#[derive(Clone, Copy)]
pub(super) struct Met {
    pub(super) counts: Levels,
    pub(super) gives: Levels,
    pub(super) keeps: Levels,
}

impl Met {
    // Whether the marker stays: it keeps a level.
    pub(super) fn stands(self) -> bool
        ensures { result ≡ not (is_none self.keeps) }
    {
        !self.keeps.is_none()
    }
}

// A marker of b with the levels v, on the way to q, where the markers above gave up `given`.
pub(super) fn meet<M: SetMap>(q: Block, b: Block, v: Levels, given: Levels, map: &M) -> Met
    ensures counts { result.counts ≡ both v (below (shared (M.meaning map.now) q.number b.number)) }
    ensures gives { result.gives ≡ less result.counts given }
    ensures keeps { result.keeps ≡ less v result.gives }
{
    let counts = v.both(Levels::below(map.shared_levels(q.number, b.number)));
    let gives = counts.less(given);
    Met {
        counts,
        gives,
        keeps: v.less(gives),
    }
}
