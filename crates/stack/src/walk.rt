ghost use Rattle.std.specs.Prelude.{◌≡◌, ℕ, ◌+◌, ◌^◌, ◌<◌, ◌≤◌, length, drop, if◌then◌else◌, sum, slice_index};
ghost use Rattle.levels.specs.Levels.{has};
ghost use Rattle.stack.specs.Walk.{stopped, above, position_at, Tallied, Walked};

use super::Entry;
use super::marker::meet;
use levels::{LEVELS, Levels};
use setmap::SetMap;
use trace::Block;

// Where a walk for a block stopped, at the block or, where it is absent, at the stack's end, and what the walk saw above:
// how many entries stay once the markers have given up what they give, what that is, and the block's position at each level.
// A fixed list for all the levels, whatever the study has: nothing from the heap.
#[derive(Clone, Copy)]
pub struct Walk {
    pub stop: Result<usize, usize>,
    pub stays: usize,
    pub given: Levels,
    pub positions: [usize; LEVELS],
}

impl Walk {
    // The block's position at a level: none where it is absent, and none at level 17 or past it.
    pub fn position(&self, level: usize) -> Option<usize>
        ensures { result ≡ position_at level self.now }
    {
        self.stop.ok()?;
        self.positions.get(level).copied()
    }
}

// What a walk has counted: blocks by how many levels they share with the one sought, markers by level.
// Two lists, since there is one more count of blocks than of markers.
#[derive(Clone, Copy)]
struct Tally {
    sharing: [usize; LEVELS + 1],
    markers: [usize; LEVELS],
    stays: usize,
    given: Levels,
}

// One more at each of the levels.
fn count_levels(counts: &mut [usize], levels: Levels)
    requires deep { length counts.old ≡ 17 }
    requires few { (i : ℕ) → i < 17 → slice_index counts.old i + 1 < 2 ^ 64 }
    ensures { (i : ℕ) → i < 17 → slice_index counts.new i ≡ slice_index counts.old i + (if has levels i then 1 else 0) }
{
    for (i, count) in counts.iter_mut().enumerate() {
        *count += usize::from(levels.has(i as u32));
    }
}

// One pass down to the block, or to the end of the stack: a loop that yields its place by break, which a `for` cannot.
// It counts in variables of its own: with one tally a short walk takes half as long again.
fn count_above<M: SetMap>(es: &[Entry], q: Block, map: &M) -> (Result<usize, usize>, Tally)
    ensures stop { result.0 ≡ stopped q es.now }
    ensures tallied { Tallied (M.meaning map.now) q (above q es.now) result.1 }
{
    let mut sharing = [0; LEVELS + 1];
    let mut markers = [0; LEVELS];
    let mut given = Levels::none();
    let mut stays = 0;
    let mut place = 0;
    let stop = loop {
        let Some(&entry) = es.get(place) else {
            break Err(place);
        };
        match entry {
            Entry::Empty => break Err(place),
            Entry::Block(b) => {
                if b == q {
                    break Ok(place);
                }
                sharing[map.shared_levels(q.number, b.number).min(LEVELS as u32) as usize] += 1;
                stays += 1;
            }
            Entry::Marker(b, v) => {
                let met = meet(q, b, v, given, map);
                count_levels(&mut markers, met.counts);
                stays += usize::from(met.stands());
                given = given.either(met.gives);
            }
        }
        place += 1;
    };
    let tally = Tally {
        sharing,
        markers,
        stays,
        given,
    };
    (stop, tally)
}

// A level's position: the blocks above that share it, the markers that count there, and the block itself.
// From the last level down, so that one sum serves every level.
// By an index: an iterator turned round over three lists says nothing of what it leaves in the first.
fn sum_levels(sharing: &[usize], markers: &[usize]) -> [usize; LEVELS]
    requires wide { (length sharing.now ≡ 18) × (length markers.now ≡ 17) }
    requires few { (i : ℕ) → i < 17 → sum sharing.now + slice_index markers.now i + 1 < 2 ^ 64 }
    ensures each { (i : ℕ) → i < 17 → slice_index result i ≡ sum (drop (i + 1) sharing.now) + slice_index markers.now i + 1 }
    ensures many { length result ≡ 17 }
{
    let mut positions = [0; LEVELS];
    let mut above = 0;
    for i in (0..LEVELS).rev() {
        above += sharing[i + 1];
        positions[i] = 1 + above + markers[i];
    }
    positions
}

// One walk from the top down to q, or to the end of the stack. It gives the position at every level at once.
// Two fields are taken over: with a tally inside a walk, each clause would name them by one step more.
pub fn walk_to<M: SetMap>(es: &[Entry], q: Block, map: &M) -> Walk
    ensures { Walked (M.meaning map.now) q es.now result }
{
    let (stop, tally) = count_above(es, q, map);
    Walk {
        stop,
        stays: tally.stays,
        given: tally.given,
        positions: sum_levels(&tally.sharing, &tally.markers),
    }
}
