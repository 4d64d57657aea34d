#![tactic(auto)]

use report::Map;
use sheets::Sizes;

mod checking;
mod rendered;
mod settings;

pub use checking::evening_sheet;
pub use rendered::render;
pub use settings::read_settings;

// What line 1 of an input says. Like the spot check's but for the numbers: one generic type would give the definitions of both a parameter.
#[derive(Clone, Copy)]
pub struct Chosen {
    pub map: Map,
    pub sizes: Sizes,
}
