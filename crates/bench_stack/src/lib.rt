#![tactic(auto)]

ghost use Rattle.std.specs.Prelude.{◌≡◌, max};
ghost use Rattle.bench_stack.specs.Ring.{total, read_at};

use setmap::bit_choice::BitChoice;
use stack::Entry;
use stack::touch::touch;
use stack::walk::Walk;
use trace::Block;

// A reference's position at a level, or 0 where it found none, which adds nothing to the sum.
fn read_at(answer: Option<Walk>, level: usize) -> u64
    ensures { result ≡ read_at level answer }
{
    answer
        .and_then(|walk| walk.position(level))
        .map_or(0, |n| n as u64)
}

// Refers to the blocks of a ring, one after the other: once each block was met, every reference walks down the whole ring.
// The positions are read at the seventeen levels in turn, by their number, as the clause has it: the name would take one crate more.
#[unsafe(no_mangle)]
pub extern "C" fn bench_stack_ring(blocks: u32, references: u32) -> u64
    ensures { result ≡ total (max blocks 1) references }
{
    let mut es = [Entry::Empty; 2048];
    let ring = blocks.max(1);
    let mut sum: u64 = 0;
    for i in 0..references {
        let answer = touch(&mut es, Block { number: i % ring }, &BitChoice);
        sum = sum.wrapping_add(read_at(answer, (i % 17) as usize));
    }
    sum
}
