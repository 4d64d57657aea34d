ghost use Rattle.std.specs.Prelude.{◌≡◌, ◌≤◌, false, IfOk, Ok};
ghost use Rattle.caches.specs.Caches.{History};
ghost use Rattle.single.specs.Calls.{Tables, short, tallied};
ghost use Rattle.single.specs.Lent.{lent};
ghost use Rattle.single.specs.Runs.{AsSeparate};
ghost use Rattle.spot_report.specs.Spot.{rows};
ghost use Rattle.spot_report.specs.Steps.{Reached};

use super::Row;
use setmap::SetMap;
use single::{LentTables, SingleCache, Tallies};
use std::alloc::{AllocError, Global};

// What has been counted of a processor that the cache has. The loop below says that it has it; a type for that would be made and taken apart at once.
fn tally_of<M: SetMap>(cache: &SingleCache<M>, p: u32, tables: &LentTables<'_>) -> Tallies
    requires long { short (M.meaning cache.now.setup.map) cache.now.setup.settings (lent tables.now) ≡ false }
    requires within { (1 ≤ p) × (p ≤ cache.now.setup.settings.processors) }
    ensures { tallied (M.meaning cache.now.setup.map) cache.now.setup.settings (lent tables.now) p ≡ Ok result }
{
    match cache.tally(p, tables.frames, tables.counters) {
        Ok(tallies) => tallies,
        Err(_) => unreachable(),
    }
}

// A line for each processor.
pub(super) fn list_rows<M: SetMap>(
    heap: Global,
    cache: &SingleCache<M>,
    processors: u32,
    tables: &LentTables<'_>,
) -> Result<Vec<Row>, AllocError>
    requires long { short (M.meaning cache.now.setup.map) cache.now.setup.settings (lent tables.now) ≡ false }
    requires within { processors ≡ cache.now.setup.settings.processors }
    ensures { IfOk result (λ v. (t₀ : Tables) (h : History) → AsSeparate (M.meaning cache.now.setup.map) cache.now.setup.settings → Reached (M.meaning cache.now.setup.map) cache.now.setup.settings t₀ h cache.now.accepted (lent tables.now) → v.items ≡ rows (M.meaning cache.now.setup.map) cache.now.setup.settings h processors) }
{
    let mut rows = Vec::new(heap);
    for processor in 1..=processors {
        let tallies = tally_of(cache, processor, tables);
        rows.push(Row { processor, tallies })?;
    }
    Ok(rows)
}
