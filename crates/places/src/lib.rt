#![tactic(auto)]

ghost use Rattle.std.specs.Prelude.{◌≡◌};
ghost use Rattle.places.specs.Moves.{fronted, closed};
ghost use Rattle.places.specs.Parts.{more};

// Moves the element at `at` to the front, and those before it one down; alters nothing where there is none.
pub fn bring_to_front<T: Copy>(s: &mut [T], at: usize)
    ensures { s.new ≡ fronted at s.old }
{
    // as fast as a loop by hand; a `rotate_right` made the walk of a short stack 5 % slower
    if at < s.len() {
        let found = s[at];
        s.copy_within(..at, 1);
        s[0] = found;
    }
}

// Takes out the element at `at`, moves those behind it one up, and puts `last` at the end; alters nothing where there is none.
pub fn close_up<T: Copy>(s: &mut [T], at: usize, last: T)
    ensures { s.new ≡ closed at last s.old }
{
    if at < s.len() {
        s[at] = last;
        s[at..].rotate_left(1);
    }
}

// One more at a counter, but never past the largest; alters nothing where there is none.
pub fn bump(counters: &mut [u32], at: usize)
    ensures { counters.new ≡ more at counters.old }
{
    if at < counters.len() {
        counters[at] = counters[at].saturating_add(1);
    }
}
