ghost use Rattle.std.specs.Prelude.{◌≡◌, Some};
ghost use Rattle.grid_report.specs.Errors.{settings_text, opening_text, reading_text};
ghost use Rattle.grid_report.specs.declared.errors.OpenError.TheVariants as opening;
ghost use Rattle.grid_report.specs.declared.errors.ReadError.TheVariants as reading;

use std::alloc::AllocError;
use std::error::Error;
use std::fmt;
use trace::Refusal;

// Why a grid is not opened.
#[derive(Clone, Copy, Debug, PartialEq, Eq)]
pub enum OpenError {
    Refused(Refusal),
    NoMemory,
}

// Why a grid takes no more: the items' count could pass 2^64, or there is no memory.
#[derive(Clone, Copy, Debug, PartialEq, Eq)]
pub enum ReadError {
    TooLong,
    NoMemory,
}

// How settings are refused.
fn settings_text(refusal: Refusal) -> &'static str
    ensures { result.now ≡ settings_text refusal }
{
    match refusal {
        Refusal::Setting => "the settings are refused with 1: a number is outside its limits",
        Refusal::Level => "the settings are refused with 2: the map lacks a level",
        Refusal::Size => "the settings are refused with 10: a number is too large",
        _ => "the settings are refused with 9: map,processors,shift,levels,ways,blocks is the form",
    }
}

impl fmt::Display for OpenError {
    ghost output = { λ e. Some (opening_text e) };

    fn fmt<W: fmt::Write>(&self, f: &mut fmt::Formatter<W>) -> fmt::Result {
        f.write_str(match self {
            OpenError::Refused(refusal) => settings_text(*refusal),
            OpenError::NoMemory => "there is not enough memory for the tables",
        })
    }
}

impl Error for OpenError {}

impl From<Refusal> for OpenError {
    ghost from_gives = { λ x r. r ≡ opening.Refused x };

    fn from(refusal: Refusal) -> OpenError {
        OpenError::Refused(refusal)
    }
}

// Once for each error, since ? asks it of the type.
impl From<AllocError> for OpenError {
    ghost from_gives = { λ _ r. r ≡ opening.NoMemory };

    fn from(_e: AllocError) -> OpenError {
        OpenError::NoMemory
    }
}

impl fmt::Display for ReadError {
    ghost output = { λ e. Some (reading_text e) };

    fn fmt<W: fmt::Write>(&self, f: &mut fmt::Formatter<W>) -> fmt::Result {
        f.write_str(match self {
            ReadError::TooLong => "the trace has more items than can be counted",
            ReadError::NoMemory => "there is not enough memory for a piece of the trace",
        })
    }
}

impl Error for ReadError {}

impl From<AllocError> for ReadError {
    ghost from_gives = { λ _ r. r ≡ reading.NoMemory };

    fn from(_e: AllocError) -> ReadError {
        ReadError::NoMemory
    }
}
