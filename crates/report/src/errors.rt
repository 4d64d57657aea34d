ghost use Rattle.std.specs.Prelude.{◌≡◌, Some};
ghost use Rattle.report.specs.Refused.{refused_line};
ghost use Rattle.report.specs.Reports.{error_shown};
ghost use Rattle.report.specs.declared.ReportError.TheVariants.{Refused, NoMemory};

use super::{RefusedLine, ReportError};
use std::alloc::AllocError;
use std::fmt;
use trace::Refusal;

impl fmt::Display for ReportError {
    ghost output = { λ e. Some (error_shown e) };

    fn fmt<W: fmt::Write>(&self, f: &mut fmt::Formatter<W>) -> fmt::Result {
        match self {
            ReportError::Refused(line) => write!(f, "{line}"),
            ReportError::NoMemory(_) => write!(f, "there is not enough memory for the report"),
        }
    }
}

// As for each error of a call that takes memory, since ? asks it of the type.
impl From<AllocError> for ReportError {
    ghost from_gives = { λ e r. r ≡ NoMemory e };

    fn from(e: AllocError) -> ReportError {
        ReportError::NoMemory(e)
    }
}

impl From<RefusedLine> for ReportError {
    ghost from_gives = { λ e r. r ≡ Refused e };

    fn from(e: RefusedLine) -> ReportError {
        ReportError::Refused(e)
    }
}

// The settings stand in line 1.
impl From<Refusal> for ReportError {
    ghost from_gives = { λ e r. r ≡ Refused (refused_line 1 e) };

    fn from(e: Refusal) -> ReportError {
        ReportError::Refused(RefusedLine::new(1, e))
    }
}
