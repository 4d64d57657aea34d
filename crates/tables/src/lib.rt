#![tactic(auto)]

mod lent;
pub mod marks;
pub mod scoring;
pub mod sums;

pub use lent::{LentTables, SeenTables};

// What a study is set up with; docs/RULES.md has the limits.
#[derive(Clone, Copy)]
pub struct Settings {
    pub processors: u32,
    pub shift: u32,
    pub levels: u32,
    pub ways: u32,
    pub blocks: u32,
    pub entries: u32,
}

// What a processor has had of a known block: no reference, one that still stands, or one that another's write has undone.
#[derive(Clone, Copy)]
pub enum Mark {
    Never,
    Held,
    Lost,
}

// What happens to a processor's mark of a block.
#[derive(Clone, Copy)]
pub enum Event {
    Own,
    OthersWrite,
}
