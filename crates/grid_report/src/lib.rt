#![tactic(auto)]

use cutting::Form;
use setmap::SetMap;
use sheets::SheetStudy;

mod errors;
mod feeding;
mod opening;
mod pieces;

pub use errors::{OpenError, ReadError};

// A study of a trace that comes in pieces. What has been read is no field of it, so the contracts tell it; that map and settings stay is a clause each, as in `sheets`.
#[derive(Drop)]
pub struct Grid<M: SetMap> {
    study: SheetStudy<M>,
    form: Form,
    // the bytes of an item that has begun
    held: Vec<u8>,
    // how many items have been put to the study
    count: u64,
}
