ghost use Rattle.std.specs.Prelude.{◌≡◌, IfOk, Some, string_bytes};
ghost use Rattle.report.specs.Refused.{refused_shown};
ghost use Rattle.report.specs.Reports.{report_text, told_text, content_text, Content, Answered};

use super::{RefusedLine, Report, ReportError, Row, Shown};
use rendering::{Lines, Titled};
use std::alloc::{AllocError, Global};
use std::fmt;

// Without its line feed.
impl fmt::Display for RefusedLine {
    ghost output = { λ x. Some (refused_shown x) };

    fn fmt<W: fmt::Write>(&self, f: &mut fmt::Formatter<W>) -> fmt::Result {
        let numbers = [self.line, u64::from(self.number)];
        write!(f, "{}", Titled("refused", &numbers))
    }
}

// The refused lines, the heading and the rows, each on a line of its own.
impl<R: Row> fmt::Display for Shown<'_, R> {
    ghost output = { λ s. Some (report_text R.heading R.text s.refused.now s.rows.now) };

    fn fmt<W: fmt::Write>(&self, f: &mut fmt::Formatter<W>) -> fmt::Result {
        let refused = Lines(self.refused);
        let rows = Lines(self.rows);
        write!(f, "{refused}{}\n{rows}", R::heading())
    }
}

impl<R: Row> fmt::Display for Report<R> {
    ghost output = { λ r. Some (report_text R.heading R.text r.refused.items r.rows.items) };

    fn fmt<W: fmt::Write>(&self, f: &mut fmt::Formatter<W>) -> fmt::Result {
        let shown = Shown {
            refused: self.refused.as_slice(),
            rows: self.rows.as_slice(),
        };
        write!(f, "{shown}")
    }
}

// What a program writes of its answer: a report, or one refused line. Want of memory stays an error.
pub fn render<R: Row>(
    heap: Global,
    answer: &Result<Report<R>, ReportError>,
) -> Result<String, AllocError>
    ensures told { IfOk result (λ t. told_text R.heading R.text answer.now ≡ Some (string_bytes t)) }
    ensures content { IfOk result (λ t. (c : Content R) → Answered c answer.now → string_bytes t ≡ content_text R.heading R.text c) }
{
    match answer {
        Ok(report) => report.to_string(heap),
        Err(ReportError::Refused(line)) => format!(in heap; "{line}\n"),
        Err(ReportError::NoMemory(error)) => Err(*error),
    }
}
