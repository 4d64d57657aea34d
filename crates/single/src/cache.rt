use super::Setup;
use setmap::SetMap;

// One level and one number of ways of the separate caches, by itself. Its frames and counters are lent to each call.
#[derive(Drop)]
pub struct SingleCache<M: SetMap> {
    pub(super) setup: Setup<M>,
    pub(super) accepted: u32,
}
