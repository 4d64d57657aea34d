ghost use Rattle.std.specs.Prelude.{◌≡◌, Some, refl, IfOk, string_bytes};
ghost use Rattle.report.specs.Reports.{Content, Answered, told_text};
ghost use Rattle.spot_report.specs.Spot.{heading, row_shown, text_of};
ghost use Rattle.spot_report.specs.declared.Row.{Row as SpotRow};

use super::Row;
use report::{Report, ReportError};
use single::Tallies;
use std::alloc::{AllocError, Global};
use std::fmt;

impl fmt::Display for Row {
    ghost output = { λ r. Some (row_shown r) };

    fn fmt<W: fmt::Write>(&self, f: &mut fmt::Formatter<W>) -> fmt::Result {
        let Tallies {
            references,
            hits,
            drops,
        } = self.tallies;
        write!(f, "{},{references},{hits},{drops}", self.processor)
    }
}

impl report::Row for Row {
    ghost heading = { heading };

    ghost text = { row_shown };

    ghost shows = { λ x. refl };

    fn heading() -> &'static str {
        "processor,references,hits,drops"
    }
}

// The text of a report, or of the one line that is refused alone. Want of memory stays an error.
pub fn render(heap: Global, answer: &Result<Report<Row>, ReportError>) -> Result<String, AllocError>
    ensures text { IfOk result (λ t. (c : Content SpotRow) → Answered c answer.now → string_bytes t ≡ text_of c) }
    ensures told { IfOk result (λ t. told_text heading row_shown answer.now ≡ Some (string_bytes t)) }
{
    report::render(heap, answer)
}
