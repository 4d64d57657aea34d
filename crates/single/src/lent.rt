use super::Frame;

// The tables of a single cache, lent to a call: sets of frames and counters.
// Two slices for all processors, cut by offsets: the caller's memory, and nothing from the heap. A list ends at the first empty frame.
#[derive(Drop)]
pub struct LentTables<'a> {
    pub frames: &'a mut [Frame],
    pub counters: &'a mut [u32],
}
