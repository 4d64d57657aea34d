ghost use Rattle.std.specs.Prelude.{◌≡◌, ◌≤◌, [], length, IfOk, None, Ok};
ghost use Rattle.setmap.specs.Mapping.{Mapping};
ghost use Rattle.single.specs.Calls.{set_up_refusal, settings_refusal};
ghost use Rattle.single.specs.Lent.{lent};
ghost use Rattle.report.specs.Reports.{Answered, unless_settings};
ghost use Rattle.report.specs.Settings.{mapping};
ghost use Rattle.spot_report.specs.Spot.{spotted_on, first_line, spot_check};
ghost use Rattle.trace.specs.Text.{text_items};

use super::feeding::feed_all;
use super::rows::list_rows;
use super::settings::read_settings;
use super::{Chosen, Row};
use report::{Map, Report, ReportError, split_input};
use setmap::SetMap;
use setmap::bit_choice::BitChoice;
use setmap::thirds::Thirds;
use single::{Frame, LentTables, Settings, SingleCache, table_sizes};
use std::alloc::Global;
use text::source::Text;

// A trace put to a cache with these tables, which a set-up accepts.
// Heap, trace and the trace's bound, which split_input gives, stay three: a struct of them would be made in one function and taken apart in the next.
fn spot_with<M: SetMap + Drop>(
    heap: Global,
    map: M,
    s: Settings,
    trace: &[u8],
    tables: &mut LentTables<'_>,
) -> Result<Report<Row>, ReportError>
    requires accepted { set_up_refusal (M.meaning map) s (lent tables.old) ≡ None }
    requires few { length trace.now ≤ 65536 }
    ensures { Answered (spotted_on (M.meaning map) s (text_items trace.now)) result }
{
    match SingleCache::set_up_on(map, s, tables) {
        Ok(mut cache) => {
            let mut refused = Vec::new(heap);
            // Line 1 counts as answered, so that an item's number is its line's.
            let mut source = Text::after(trace, 1);
            feed_all(&mut cache, &mut source, tables, &mut refused)?;
            let rows = list_rows(heap, &cache, s.processors, tables)?;
            Ok(Report { refused, rows })
        }
        Err(_) => unreachable(),
    }
}

// A trace put to a cache on the map, with tables of just the size that the settings need.
fn spot_trace<M: SetMap + Drop>(
    heap: Global,
    map: M,
    s: Settings,
    trace: &[u8],
) -> Result<Report<Row>, ReportError>
    requires { length trace.now ≤ 65536 }
    ensures { Answered (unless_settings (settings_refusal (M.meaning map) s) (spotted_on (M.meaning map) s (text_items trace.now))) result }
{
    let sizes = table_sizes(&map, s)?;
    // Two lists, since a cache is lent two slices.
    let mut frames: Vec<Frame> = vec![in heap; None; sizes.frames]?;
    let mut counters: Vec<u32> = vec![in heap; 0; sizes.counters]?;
    let mut tables = LentTables {
        frames: &mut frames,
        counters: &mut counters,
    };
    spot_with(heap, map, s, trace, &mut tables)
}

// Map by map, since a closure is not generic in the map.
fn spot_chosen(heap: Global, chosen: Chosen, trace: &[u8]) -> Result<Report<Row>, ReportError>
    requires { length trace.now ≤ 65536 }
    ensures { Answered (first_line (Ok chosen) (text_items trace.now)) result }
{
    match chosen.map {
        Map::BitChoice => spot_trace(heap, BitChoice, chosen.settings, trace),
        Map::Thirds => spot_trace(heap, Thirds, chosen.settings, trace),
    }
}

// The report of a program's input. One function for this and the evening sheet would be longer than its three lines.
pub fn spot_check(heap: Global, input: &[u8]) -> Result<Report<Row>, ReportError>
    ensures { Answered (spot_check input.now) result }
{
    let (line, trace) = split_input(input)?;
    let chosen = read_settings(line)?;
    spot_chosen(heap, chosen, trace)
}
