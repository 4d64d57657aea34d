#![tactic(auto)]

use caches::Figures;

mod faults;
mod owned;
mod owning;
mod rendered;
mod rows;
mod settings;
mod studying;

pub use owned::OwnTables;
pub use owning::SheetStudy;

// The sizes of a study: its settings but the entries, which are enough for each level and block.
#[derive(Clone, Copy)]
pub struct Sizes {
    pub processors: u32,
    pub shift: u32,
    pub levels: u32,
    pub ways: u32,
    pub blocks: u32,
}

// One line of a sheet: a cache of one processor, level and number of ways.
#[derive(Clone, Copy)]
pub struct Row {
    pub processor: u32,
    pub level: u32,
    pub sets: u32,
    pub ways: u32,
    pub figures: Figures,
}
