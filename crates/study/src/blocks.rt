ghost use Rattle.std.specs.Prelude.{◌≡◌, ◌≤◌, length, take, position};
ghost use Rattle.trace.specs.Items.{same};

use trace::Block;

// A block and its place among the known ones: where it stands, or, as a new one, where it will.
// The processor is no part of it: a write takes the same block past every one.
#[derive(Clone, Copy)]
pub(super) struct Spot {
    pub(super) block: Block,
    pub(super) place: usize,
}

// The place of a block among the first n known ones.
pub(super) fn seek_block(known: &[Block], n: u32, block: Block) -> Option<usize>
    requires { n ≤ length known.now }
    ensures { result ≡ position (λ b. same b block) (take n known.now) }
{
    known[..n as usize].iter().position(|b| *b == block)
}
