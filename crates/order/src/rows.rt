ghost use Rattle.std.specs.Prelude.{◌≡◌, ◌<◌, ◌≤◌, true, false, not, ◌&&◌, length, slice_index_or, slice_set};
ghost use Rattle.order.specs.Looks.{all_empty, row_in_order};
ghost use Rattle.order.specs.Order.{Distinct, held_mark, is_held};
ghost use Rattle.tables.specs.Calls.{place_of};
ghost use Rattle.tables.specs.declared.Mark.TheVariants.{Never};

use super::hints::Hints;
use stack::Entry;
use std::mem;
use tables::Mark;
use trace::Block;

// A study knows so many blocks at most; clauses write the number. A flag for each is fixed memory: the study takes nothing from the heap.
pub const MOST: usize = 4096;

// Whether a block's mark says held; one that has no mark has had no reference.
pub fn is_held(marks: &[Mark], at: usize) -> bool
    ensures { result ≡ is_held (slice_index_or marks.now at Never) }
{
    matches!(marks.get(at), Some(Mark::Held))
}

// Whether a block may stand in the stack: it is known, marked as held and not yet seen, which it is from now on.
// These stay parameters: a method of a struct of them would have to say besides that the blocks, the marks and the number of flags stay.
fn see(known: &[Block], hints: &mut Hints, marks: &[Mark], seen: &mut [bool], b: Block) -> bool
    requires { length known.now ≤ length seen.old }
    ensures value { Distinct known.now → result ≡ (held_mark known.now marks.now b && not (slice_index_or seen.old (place_of b known.now) false)) }
    ensures after { Distinct known.now → result ≡ true → seen.new ≡ slice_set seen.old (place_of b known.now) true }
{
    match hints.find(known, b) {
        Some(place) => is_held(marks, place) && !mem::replace(&mut seen[place], true),
        None => false,
    }
}

fn all_empty(es: &[Entry]) -> bool
    ensures { result ≡ all_empty es.now }
{
    es.iter().all(|e| matches!(e, Entry::Empty))
}

// Whether one processor's entries and marks are in order, where these blocks are known, and distinct.
pub fn row_in_order(known: &[Block], hints: &mut Hints, es: &[Entry], marks: &[Mark]) -> bool
    ensures { Distinct known.now → result ≡ row_in_order known.now marks.now es.now }
{
    if known.len() > MOST {
        return false;
    }
    let mut seen = [false; MOST];
    let mut rest = es;
    while let Some((e, behind)) = rest.split_first() {
        match *e {
            Entry::Empty => return all_empty(behind),
            Entry::Block(b) => {
                if !see(known, hints, marks, &mut seen, b) {
                    return false;
                }
            }
            Entry::Marker(_, _) => {}
        }
        rest = behind;
    }
    true
}
