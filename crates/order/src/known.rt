ghost use Rattle.std.specs.Prelude.{◌≡◌, position};
ghost use Rattle.caches.specs.Caches.{among};
ghost use Rattle.order.specs.Looks.{no_repeat};
ghost use Rattle.trace.specs.Items.{same};

use trace::Block;

// So many blocks are compared together, which is faster than one after the other.
const CHUNK: usize = 16;

// Whether one of some blocks is q. It looks at all of them, whatever it finds, so that the compiler can compare many at once.
fn has_any(blocks: &[Block], q: Block) -> bool
    ensures { result ≡ among q blocks.now }
{
    blocks.iter().fold(false, |any, b| any | (*b == q))
}

// The first place of q: past the chunks that do not have it, and then block by block.
pub(super) fn place(blocks: &[Block], q: Block) -> Option<usize>
    ensures { result ≡ position (λ b. same b q) blocks.now }
{
    let chunks = blocks.as_chunks::<CHUNK>().0;
    let hit = chunks.iter().position(|chunk| has_any(chunk, q));
    let passed = CHUNK * hit.unwrap_or(chunks.len());
    blocks[passed..]
        .iter()
        .position(|b| *b == q)
        .map(|at| passed + at)
}

// Whether q is among some blocks.
#[tactic(auto, using(crate::proofs::Blocks::among_position))]
pub fn has(blocks: &[Block], q: Block) -> bool
    ensures { result ≡ among q blocks.now }
{
    place(blocks, q).is_some()
}

// Whether no block stands twice: a list looked through, since a set of the blocks would need the heap.
pub fn no_repeat(known: &[Block]) -> bool
    ensures value { result ≡ no_repeat known.now }
{
    let mut rest = known;
    while let Some((first, behind)) = rest.split_first() {
        if has(behind, *first) {
            return false;
        }
        rest = behind;
    }
    true
}
