#![tactic(auto)]

mod blocks;
mod bulk;
mod closed;
mod counting;
mod feeding;
mod layout;
mod limits;
mod looking;
mod open;
mod questions;
mod referring;
mod setup;
mod starting;
mod stretches;
mod work;

pub use closed::ClosedStudy;
pub use open::OpenStudy;
