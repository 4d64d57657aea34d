ghost use Rattle.std.specs.Prelude.{◌≡◌, [], ◌∷◌, ◌++◌};
ghost use Rattle.stack.specs.declared.Entry.TheVariants.{Empty};
ghost use Rattle.stack.specs.Worked.{met_before, met_after, WorkedReference};

use super::Entry;
use super::touch::touch;
use levels::Levels;
use setmap::bit_choice::BitChoice;
use trace::Block;

// Markers of 13 (levels 0, 3 and 4) and 9 (levels 0, 1 and 4) above the block 5, and room for one entry more.
fn before() -> [Entry; 4]
    ensures { result ≡ met_before ++ (Empty ∷ []) }
{
    [
        Entry::Marker(Block { number: 13 }, Levels { bits: 0b1_1001 }),
        Entry::Marker(Block { number: 9 }, Levels { bits: 0b1_0011 }),
        Entry::Block(Block { number: 5 }),
        Entry::Empty,
    ]
}

// A reference to 5 there.
pub fn worked_reference() -> [Entry; 4]
    ensures theorem { WorkedReference }
    ensures answer { result ≡ met_after }
{
    let mut es = before();
    let _ = touch(&mut es, Block { number: 5 }, &BitChoice);
    es
}
