ghost use Rattle.std.specs.Prelude.{◌≡◌, ◌+◌, ◌^◌, ◌<◌, ◌≤◌, [], length};

// What is left of a trace's bytes, and how many of its items have been answered.
#[derive(Drop)]
pub struct Unread<'a> {
    pub bytes: &'a [u8],
    pub answered: u64,
    // An item takes a byte at least, so the count never overflows.
    ghost room: { answered + length bytes.now < 2 ^ 64 },
}

impl<'a> Unread<'a> {
    // A whole trace.
    pub fn new(bytes: &'a [u8]) -> Unread<'a>
        ensures bytes { result.bytes.now ≡ bytes.now }
        ensures answered { result.answered ≡ 0 }
    {
        Unread { bytes, answered: 0 }
    }

    // The rest of a trace of which so many items have been answered; none of it where their count could overflow.
    pub fn after(bytes: &'a [u8], answered: u64) -> Unread<'a>
        ensures bytes { answered + length bytes.now < 2 ^ 64 → result.bytes.now ≡ bytes.now }
        ensures none { 2 ^ 64 ≤ answered + length bytes.now → result.bytes.now ≡ [] }
        ensures answered { result.answered ≡ answered }
    {
        let fits = bytes.len() as u64 <= u64::MAX - answered;
        let bytes: &[u8] = if fits { bytes } else { &[] };
        Unread { bytes, answered }
    }

    // All that is left, for the next item to be cut off its front, and the item's number; None at the end. Who cuts it off puts the rest back.
    pub fn begin_item(&mut self) -> Option<(&'a [u8], u64)>
        ensures { elim result [ Some x ↦ (0 < length self.old.bytes.now) × (x.0.now ≡ self.old.bytes.now) × (x.1 ≡ self.old.answered + 1) × (self.new.bytes.now ≡ []) × (self.new.answered ≡ x.1) | None ↦ (self.old.bytes.now ≡ []) × (self.new.bytes.now ≡ []) × (self.new.answered ≡ self.old.answered) ] }
    {
        let bytes = self.bytes;
        if bytes.is_empty() {
            return None;
        }
        self.bytes = &[];
        self.answered += 1;
        Some((bytes, self.answered))
    }
}
