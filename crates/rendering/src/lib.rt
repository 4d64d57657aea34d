#![tactic(auto)]

ghost use Rattle.std.specs.Prelude.{Some};
ghost use Rattle.rendering.specs.Lines.{after_commas, joined, shown_lines, titled};

use std::fmt;

// Numbers, each after a comma.
#[derive(Clone, Copy)]
struct AfterCommas<'a>(&'a [u64]);

impl fmt::Display for AfterCommas<'_> {
    ghost output = { λ s. Some (after_commas s.0.now) };

    fn fmt<W: fmt::Write>(&self, f: &mut fmt::Formatter<W>) -> fmt::Result {
        for number in self.0 {
            write!(f, ",{number}")?;
        }
        Ok(())
    }
}

// A title, and numbers after it.
#[derive(Clone, Copy)]
pub struct Titled<'a>(pub &'a str, pub &'a [u64]);

impl fmt::Display for Titled<'_> {
    ghost output = { λ s. Some (titled s.0.now s.1.now) };

    fn fmt<W: fmt::Write>(&self, f: &mut fmt::Formatter<W>) -> fmt::Result {
        let numbers = AfterCommas(self.1);
        write!(f, "{}{numbers}", self.0)
    }
}

// Numbers with a comma between each two.
#[derive(Clone, Copy)]
pub struct Numbers<'a>(pub &'a [u64]);

impl fmt::Display for Numbers<'_> {
    ghost output = { λ s. Some (joined s.0.now) };

    fn fmt<W: fmt::Write>(&self, f: &mut fmt::Formatter<W>) -> fmt::Result {
        let Some((first, others)) = self.0.split_first() else {
            return Ok(());
        };
        let others = AfterCommas(others);
        write!(f, "{first}{others}")
    }
}

// Values, each on a line of its own.
#[derive(Clone, Copy)]
pub struct Lines<'a, T>(pub &'a [T]);

impl<T: fmt::Display> fmt::Display for Lines<'_, T> {
    ghost output = { λ s. shown_lines T.output s.0.now };

    fn fmt<W: fmt::Write>(&self, f: &mut fmt::Formatter<W>) -> fmt::Result {
        for line in self.0 {
            writeln!(f, "{line}")?;
        }
        Ok(())
    }
}
