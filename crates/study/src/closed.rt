use super::setup::Setup;
use setmap::SetMap;

// A study that is counted, and takes no more references.
#[derive(Drop)]
pub struct ClosedStudy<M: SetMap> {
    pub(super) setup: Setup<M>,
}
