#![tactic(auto)]

use report::Map;
use single::{Settings, Tallies};

mod checking;
mod feeding;
mod rendered;
mod rows;
mod settings;

pub use checking::spot_check;
pub use rendered::render;

// What line 1 of an input says. Like the evening sheet's but for the numbers: one generic type would give the definitions of both a parameter.
#[derive(Clone, Copy)]
pub struct Chosen {
    pub map: Map,
    pub settings: Settings,
}

// What is counted of one processor.
#[derive(Clone, Copy)]
pub struct Row {
    pub processor: u32,
    pub tallies: Tallies,
}
