// Beside the study and not under one form with it: with other settings and other tables, what the two share would be generic over both.
#![tactic(auto)]

use setup::Setup;
use trace::Block;

mod cache;
mod lent;
mod limits;
mod lists;
mod questions;
mod referring;
mod setup;
mod starting;

pub use cache::SingleCache;
pub use lent::LentTables;
pub use starting::table_sizes;

// A frame of a cache: a block, or nothing.
pub type Frame = Option<Block>;

// What a single cache is set up with; docs/RULES.md has the limits.
#[derive(Clone, Copy)]
pub struct Settings {
    pub processors: u32,
    pub shift: u32,
    pub level: u32,
    pub ways: u32,
}

// What is counted of one processor's cache.
#[derive(Clone, Copy)]
pub struct Tallies {
    pub references: u32,
    pub hits: u32,
    pub drops: u32,
}

// How many elements the two tables need at least.
#[derive(Clone, Copy)]
pub struct TableSizes {
    pub frames: usize,
    pub counters: usize,
}

// What an ended cache leaves.
#[derive(Drop)]
pub struct Ended<M> {
    pub map: M,
    pub accepted: u32,
}
