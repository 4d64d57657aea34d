ghost use Rattle.std.specs.Prelude.{◌≡◌, slice_index_or, slice_set};
ghost use Rattle.tables.specs.declared.Mark.TheVariants.{Never};
ghost use Rattle.tables.specs.Calls.{marked};

use super::{Event, Mark};

// A mark after an event. The event is data, so that one match on both says all that can happen.
fn change(mark: Mark, event: Event) -> Mark
    ensures { result ≡ marked mark event }
{
    match (mark, event) {
        (Mark::Never, Event::Own) => Mark::Held,
        (Mark::Never, Event::OthersWrite) => Mark::Never,
        (Mark::Held, Event::Own) => Mark::Held,
        (Mark::Held, Event::OthersWrite) => Mark::Lost,
        (Mark::Lost, Event::Own) => Mark::Held,
        (Mark::Lost, Event::OthersWrite) => Mark::Lost,
    }
}

// Puts an event to a mark, in its place, and answers the mark before; alters nothing where there is none.
// Written by its index: what `get_mut` lends says nothing of the marks afterwards.
pub fn note(marks: &mut [Mark], at: usize, event: Event) -> Mark
    ensures before { result ≡ slice_index_or marks.old at Never }
    ensures after { marks.new ≡ slice_set marks.old at (marked (slice_index_or marks.old at Never) event) }
{
    let Some(&before) = marks.get(at) else {
        return Mark::Never;
    };
    marks[at] = change(before, event);
    before
}
