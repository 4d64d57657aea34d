#![tactic(auto)]

ghost use Rattle.std.specs.Prelude.{◌≡◌, ℕ, List, Ok, Err, Some};
ghost use Rattle.text.specs.Cuts.{upto, past};
ghost use Rattle.report.specs.Refused.{refused_line};
ghost use Rattle.report.specs.Settings.{map_field, letter_map};

use std::alloc::AllocError;
use std::fmt;
use text::cut::take_field;
use trace::{Fault, Refusal};

mod errors;
mod input;
mod rendered;

pub use input::{read_input, split_input};
pub use rendered::render;

// The longest input that a program reads.
pub const INPUT_LIMIT: usize = 65_536;

// The set map that an input names.
#[derive(Clone, Copy, PartialEq, Eq)]
pub enum Map {
    BitChoice,
    Thirds,
}

// A map by its letter.
impl TryFrom<char> for Map {
    type Error = Refusal;

    ghost try_from_gives = { λ letter r. r ≡ letter_map letter };

    fn try_from(letter: char) -> Result<Map, Refusal> {
        match letter {
            'b' => Ok(Map::BitChoice),
            't' => Ok(Map::Thirds),
            _ => Err(Refusal::Form),
        }
    }
}

// The first field of a line as a map, and the rest of the line.
pub fn take_map(line: &[u8]) -> Result<(Map, &[u8]), Refusal>
    ensures { elim result [ Ok x ↦ (map_field (upto 44 line.now) ≡ Ok x.0) × (x.1.now ≡ past 44 line.now) | Err e ↦ map_field (upto 44 line.now) ≡ Err e ] }
{
    let (field, rest) = take_field(line);
    let [letter] = field else {
        return Err(Refusal::Form);
    };
    let map = Map::try_from(char::from(*letter))?;
    Ok((map, rest))
}

// A refused line of the input, by its number from 1, or 0 for the input as a whole, as it is written: refused,0,12.
// Its refusal is a number: who only writes lines may have numbers that no refusal has.
#[derive(Clone, Copy, PartialEq, Eq)]
pub struct RefusedLine {
    pub line: u64,
    pub number: u32,
}

impl RefusedLine {
    pub fn new(line: u64, refusal: Refusal) -> RefusedLine
        ensures { result ≡ refused_line line refusal }
    {
        RefusedLine {
            line,
            number: refusal.number(),
        }
    }
}

// Where the source counts lines, an item's number is its line's.
impl From<Fault> for RefusedLine {
    ghost from_gives = { λ fault r. r ≡ refused_line fault.item fault.refusal };

    fn from(fault: Fault) -> RefusedLine {
        RefusedLine::new(fault.item, fault.refusal)
    }
}

// A row of a report, which writes itself without its line feed.
pub trait Row: fmt::Display {
    ghost heading: { List ℕ };

    ghost text: { Self → List ℕ };

    // What stands above the rows. It is no constant, since no clause could name the bytes of a constant text.
    fn heading() -> &'static str
        ensures { result.now ≡ heading };

    ghost shows: { (x : Self) → Self.output x ≡ Some (text x) };
}

// Refused lines and rows, to be written, whoever has them; a report has lists of its own.
#[derive(Clone, Copy)]
pub struct Shown<'a, R> {
    pub refused: &'a [RefusedLine],
    pub rows: &'a [R],
}

// Refused lines, and rows.
#[derive(Drop)]
pub struct Report<R> {
    pub refused: Vec<RefusedLine>,
    pub rows: Vec<R>,
}

// Why there is no report: a refused line is all that is to be said of the input, or there is no memory.
#[derive(Clone, Copy, PartialEq, Eq)]
pub enum ReportError {
    Refused(RefusedLine),
    NoMemory(AllocError),
}
