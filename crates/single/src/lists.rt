ghost use Rattle.std.specs.Prelude.{◌≡◌, ◌<◌, length, take, position};
ghost use Rattle.caches.specs.Caches.{among, without, used};
ghost use Rattle.single.specs.Calls.{list_of, relisted, vacant, holds};

use super::Frame;
use places::{bring_to_front, close_up};
use trace::Block;

// The first empty frame, where the list ends.
fn first_empty(set: &[Frame]) -> Option<usize>
    ensures { result ≡ position vacant set.now }
{
    set.iter().position(|f| f.is_none())
}

// Where the block stands in the list.
fn place_of(list: &[Frame], block: Block) -> Option<usize>
    ensures { result ≡ position (holds block) list.now }
{
    list.iter().position(|f| *f == Some(block))
}

// An own reference to a block of the set; whether it is a hit.
pub(super) fn touch(set: &mut [Frame], block: Block) -> bool
    requires { 0 < length set.old }
    ensures hit { result ≡ among block (list_of set.old) }
    ensures after { set.new ≡ relisted (used (length set.old) block (list_of set.old)) set.old }
{
    let end = first_empty(set).unwrap_or(set.len());
    if let Some(place) = place_of(&set[..end], block) {
        bring_to_front(set, place);
        return true;
    }
    // a new block takes the first empty frame, or else that of the last block
    let place = end.min(set.len() - 1);
    set[place] = Some(block);
    bring_to_front(set, place);
    false
}

// Another's write of a block of the set; whether the block was dropped.
// Inlined, since a write calls it for each other processor, and mostly it finds nothing to do.
#[inline(always)]
pub(super) fn lose(set: &mut [Frame], block: Block) -> bool
    ensures dropped { result ≡ among block (list_of set.old) }
    ensures after { set.new ≡ relisted (without block (list_of set.old)) set.old }
{
    let end = first_empty(set).unwrap_or(set.len());
    if let Some(place) = place_of(&set[..end], block) {
        close_up(&mut set[..end], place, None);
        return true;
    }
    false
}
