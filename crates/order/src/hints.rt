ghost use Rattle.std.specs.Prelude.{◌≡◌, ◌<◌, ◌≤◌, true, length, replicate, Some, None, unwrap_or, IfSome, slice_index_or, slice_set, SomeIndex};
ghost use Rattle.order.specs.Order.{Distinct};
ghost use Rattle.tables.specs.Calls.{place_of};

use super::known::place;
use trace::Block;

// As many slots as twice the blocks that a study can know.
const SLOTS: usize = 8192;

// A hint stands in one of so many slots, the first of which the block's number chooses.
const WINDOW: usize = 8;

// Places below this are noted.
const PLACES: usize = 65_535;

// Places where blocks may stand. A hint is a guess: nothing is answered before a look has confirmed it.
// The table is made by hand, since the study takes nothing from the heap and has fixed memory.
#[derive(Drop)]
pub struct Hints {
    places: [Option<u16>; SLOTS],
}

// A slot of a block's window. The top 13 bits of a product spread the numbers that lie close together.
fn slot_of(q: Block, step: usize) -> usize
    ensures { result < 8192 }
{
    ((q.number.wrapping_mul(0x9E37_79B1) >> 19) as usize).wrapping_add(step) % SLOTS
}

// The one look by which a guess is confirmed: whether q stands at a place.
fn stands_at(known: &[Block], place: usize, q: Block) -> bool
    ensures within { result ≡ true → place < length known.now }
    ensures right { result ≡ true → slice_index_or known.now place q ≡ q }
{
    place < known.len() && known[place] == q
}

impl Hints {
    // No slot has a hint.
    pub fn none() -> Hints
        ensures { result.places ≡ replicate 8192 None }
    {
        Hints {
            places: [None; SLOTS],
        }
    }

    // The place of a block among known ones that are distinct. A block that is not known is noted too: if it comes to be
    // known, it stands at just the place behind them.
    // That they are distinct is a premise: they are the caller's slice.
    pub fn find(&mut self, known: &[Block], q: Block) -> Option<usize>
        ensures value { Distinct known.now → unwrap_or result (length known.now) ≡ place_of q known.now }
        ensures within { IfSome result (λ k. k < length known.now) }
    {
        let guess = self.guess(known, q);
        if guess.is_some() {
            return guess;
        }
        let sought = place(known, q);
        self.note(q, sought.unwrap_or(known.len()));
        sought
    }

    // The hint in one of a block's slots.
    fn hint(&self, q: Block, step: usize) -> Option<usize> {
        self.places[slot_of(q, step)].map(usize::from)
    }

    // The first guess that a look confirms.
    fn guess(&self, known: &[Block], q: Block) -> Option<usize>
        ensures right { IfSome result (λ k. (k < length known.now) × (slice_index_or known.now k q ≡ q)) }
    {
        (0..WINDOW)
            .filter_map(|step| self.hint(q, step))
            .find(|place| stands_at(known, *place, q))
    }

    // Notes a place for q in one slot; a larger place is let go. Which slot is not said: a hint is a guess,
    // and whatever it says, what is found by it is right.
    // Compared and cast, since `u16::try_from` would take place 65,535 too.
    pub fn note(&mut self, q: Block, place: usize)
        ensures noted { place < PLACES → SomeIndex self.old.places (λ k. self.new.places ≡ slice_set self.old.places k (Some place)) }
        ensures too_large { PLACES ≤ place → self.new ≡ self.old }
    {
        if place < PLACES {
            let slot = self.free_slot(q);
            self.places[slot] = Some(place as u16);
        }
    }

    // The first of a block's slots that has no hint, or its first slot.
    fn free_slot(&self, q: Block) -> usize
        ensures { result < 8192 }
    {
        let step = (0..WINDOW).find(|step| self.hint(q, *step).is_none());
        slot_of(q, step.unwrap_or(0))
    }
}
