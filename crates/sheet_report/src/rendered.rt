ghost use Rattle.std.specs.Prelude.{◌≡◌, Some, IfOk, string_bytes};
ghost use Rattle.report.specs.Reports.{Content, Answered, told_text};
ghost use Rattle.sheet_report.specs.Evening.{text_of};
ghost use Rattle.sheets.specs.Sheets.{heading, row_shown};
ghost use Rattle.sheets.specs.declared.Row.{Row as SheetRow};

use report::{Report, ReportError};
use sheets::Row;
use std::alloc::{AllocError, Global};

// The text of a sheet, or of the one line that is refused alone. Want of memory stays an error.
pub fn render(heap: Global, answer: &Result<Report<Row>, ReportError>) -> Result<String, AllocError>
    ensures text { IfOk result (λ t. (c : Content SheetRow) → Answered c answer.now → string_bytes t ≡ text_of c) }
    ensures told { IfOk result (λ t. told_text heading row_shown answer.now ≡ Some (string_bytes t)) }
{
    report::render(heap, answer)
}
