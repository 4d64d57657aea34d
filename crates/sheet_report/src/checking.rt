ghost use Rattle.std.specs.Prelude.{◌≡◌, ◌≤◌, true, length, Ok, IfErr};
ghost use Rattle.report.specs.Reports.{Answered, unless_settings};
ghost use Rattle.sheet_report.specs.Evening.{studied, settings_refusal, first_line, evening};
ghost use Rattle.sheets.specs.Settings.{settings_of};
ghost use Rattle.tables.specs.Calls.{unlimited};
ghost use Rattle.trace.specs.Text.{text_items};
ghost use Rattle.trace.specs.declared.Refusal.TheVariants.{Setting as SettingRefused};

use super::Chosen;
use super::settings::read_settings;
use report::{Map, Report, ReportError, split_input};
use setmap::SetMap;
use setmap::bit_choice::BitChoice;
use setmap::thirds::Thirds;
use sheets::{OwnTables, Row, SheetStudy, Sizes};
use std::alloc::Global;
use text::source::Text;
use trace::Refusal;

// The lengths of the sheet's tables.
const ENTRIES: usize = 5_120;

const KNOWN: usize = 256;

const MARKS: usize = 4_096;

const COUNTERS: usize = 8_192;

// Refuses more levels or blocks than any study has: before there are tables, so that such a line is told whatever the memory.
fn check_sizes(sizes: Sizes) -> Result<(), Refusal>
    ensures { IfErr result (λ e. (unlimited (settings_of sizes) ≡ true) × (e ≡ SettingRefused)) }
{
    if sizes.levels > 17 || sizes.blocks > 4_096 {
        return Err(Refusal::Setting);
    }
    Ok(())
}

// A trace put to a study of these sizes on the map, with the sheet's tables.
// Heap, trace and the trace's bound, which split_input gives, stay three: a struct of them would be made in one function and taken apart in the next.
fn study_trace<M: SetMap + Copy>(
    heap: Global,
    map: M,
    sizes: Sizes,
    trace: &[u8],
) -> Result<Report<Row>, ReportError>
    requires { length trace.now ≤ 65536 }
    ensures { Answered (unless_settings (settings_refusal (M.meaning map) (settings_of sizes)) (studied (M.meaning map) (settings_of sizes) (text_items trace.now))) result }
{
    check_sizes(sizes)?;
    let tables = OwnTables::new(heap, ENTRIES, KNOWN, MARKS, COUNTERS)?;
    let mut study = SheetStudy::set_up(map, sizes, tables)?;
    // Line 1 counts as answered, so that an item's number is its line's.
    let mut source = Text::after(trace, 1);
    let refused = study.feed_all(heap, &mut source)?;
    let rows = study.finish(heap)?;
    Ok(Report { refused, rows })
}

// A trace put to the study that line 1 asks for, map by map, since a closure is not generic in the map.
fn study_chosen(heap: Global, chosen: Chosen, trace: &[u8]) -> Result<Report<Row>, ReportError>
    requires { length trace.now ≤ 65536 }
    ensures { Answered (first_line (Ok chosen) (text_items trace.now)) result }
{
    match chosen.map {
        Map::BitChoice => study_trace(heap, BitChoice, chosen.sizes, trace),
        Map::Thirds => study_trace(heap, Thirds, chosen.sizes, trace),
    }
}

// The evening sheet of a program's input. One function for this and the spot check would be longer than its three lines.
pub fn evening_sheet(heap: Global, input: &[u8]) -> Result<Report<Row>, ReportError>
    ensures { Answered (evening input.now) result }
{
    let (line, trace) = split_input(input)?;
    let chosen = read_settings(line)?;
    study_chosen(heap, chosen, trace)
}
