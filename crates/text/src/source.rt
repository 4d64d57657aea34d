ghost use Rattle.std.specs.Prelude.{◌≡◌, ◌+◌, ◌^◌, ◌<◌, ◌≤◌, [], length};
ghost use Rattle.trace.specs.Text.{text_items};

use super::cut::split_line;
use super::faults::LineFault;
use super::line::read_line;
use trace::{Fault, Reference, Source, Unread};

// The source of a text trace.
#[derive(Drop)]
pub struct Text<'a> {
    unread: Unread<'a>,
}

impl<'a> Text<'a> {
    pub fn new(bytes: &'a [u8]) -> Text<'a>
        ensures rest { result.unread.bytes.now ≡ bytes.now }
        ensures count { result.unread.answered ≡ 0 }
    {
        Text {
            unread: Unread::new(bytes),
        }
    }

    // The rest of a trace of which so many items have been answered; none of it where their count could overflow.
    pub fn after(bytes: &'a [u8], answered: u64) -> Text<'a>
        ensures rest { answered + length bytes.now < 2 ^ 64 → result.unread.bytes.now ≡ bytes.now }
        ensures none { 2 ^ 64 ≤ answered + length bytes.now → result.unread.bytes.now ≡ [] }
        ensures count { result.unread.answered ≡ answered }
    {
        Text {
            unread: Unread::after(bytes, answered),
        }
    }
}

impl<'a> Source for Text<'a> {
    ghost items = { λ s. text_items s.unread.bytes.now };

    ghost answered = { λ s. s.unread.answered };

    fn next(&mut self) -> Result<Option<Reference>, Fault> {
        let Some((bytes, item)) = self.unread.begin_item() else {
            return Ok(None);
        };
        let (line, rest) = split_line(bytes).ok_or(LineFault::CutOff { item })?;
        // first, so that a refused line is passed over too
        self.unread.bytes = rest;
        let reference = read_line(line, item)?;
        Ok(Some(reference))
    }

    fn count(&self) -> u64 {
        self.unread.answered
    }
}
