ghost use Rattle.std.specs.Prelude.{◌≡◌, IfOk, vec_len};

use stack::Entry;
use std::alloc::{AllocError, Global};
use tables::Mark;
use trace::Block;

// The tables of a study that owns them: four lists, since a study is lent four slices.
#[derive(Drop)]
pub struct OwnTables {
    pub(super) entries: Vec<Entry>,
    pub(super) known: Vec<Block>,
    pub(super) marks: Vec<Mark>,
    pub(super) counters: Vec<u32>,
}

impl OwnTables {
    // Tables of these lengths.
    pub fn new(
        heap: Global,
        entries: usize,
        known: usize,
        marks: usize,
        counters: usize,
    ) -> Result<OwnTables, AllocError>
        ensures { IfOk result (λ t. (vec_len t.entries ≡ entries) × (vec_len t.known ≡ known) × (vec_len t.marks ≡ marks) × (vec_len t.counters ≡ counters)) }
    {
        let entries: Vec<Entry> = vec![in heap; Entry::Empty; entries]?;
        let known: Vec<Block> = vec![in heap; Block { number: 0 }; known]?;
        let marks: Vec<Mark> = vec![in heap; Mark::Never; marks]?;
        let counters: Vec<u32> = vec![in heap; 0; counters]?;
        Ok(OwnTables {
            entries,
            known,
            marks,
            counters,
        })
    }
}
