ghost use Rattle.std.specs.Prelude.{◌≡◌, ◌+◌, ◌-◌, ◌^◌, ◌<◌, false, length, OnOk};
ghost use Rattle.single.specs.Calls.{short};
ghost use Rattle.single.specs.Lent.{lent, SameSlices};
ghost use Rattle.spot_report.specs.Steps.{standing_of, FedOne, PutThrough};

use report::RefusedLine;
use setmap::SetMap;
use single::{LentTables, SingleCache};
use std::alloc::AllocError;
use trace::{Fault, Fed, Layer, Source};

// That the tables suffice stays asked for, here and in the rows: a struct that lends them with it would have to show it anew after each feed.
// Room for one reference more stays asked for too: the cache refuses one too many, and the report promises that none is refused for that.
// Beside the study's feed and not under one form with it: the settings, the tables and the contracts on them are others.

// Puts the next item of a source to the cache.
pub(super) fn feed<M: SetMap, S: Source>(
    cache: &mut SingleCache<M>,
    source: &mut S,
    tables: &mut LentTables<'_>,
) -> Result<Fed, Fault>
    requires long { short (M.meaning cache.old.setup.map) cache.old.setup.settings (lent tables.old) ≡ false }
    requires room { cache.old.accepted < 2 ^ 32 - 1 }
    ensures fed { FedOne (M.meaning cache.old.setup.map) cache.old.setup.settings (standing_of (S.items source.old) (S.answered source.old) cache.old.accepted (lent tables.old)) result (standing_of (S.items source.new) (S.answered source.new) cache.new.accepted (lent tables.new)) }
    ensures same { SameSlices tables.old tables.new }
    ensures setup { cache.new.setup ≡ cache.old.setup }
{
    let Some(r) = source.next()? else {
        return Ok(Fed::End);
    };
    let item = source.count();
    cache.reference_on(r, tables).map_err(|refusal| Fault {
        refusal,
        item,
        layer: Layer::Study,
    })?;
    Ok(Fed::Accepted)
}

// Puts a source whose items are lines to the cache, to its end, and adds its refused lines to `refused`.
pub(super) fn feed_all<M: SetMap, S: Source>(
    cache: &mut SingleCache<M>,
    source: &mut S,
    tables: &mut LentTables<'_>,
    refused: &mut Vec<RefusedLine>,
) -> Result<(), AllocError>
    requires long { short (M.meaning cache.old.setup.map) cache.old.setup.settings (lent tables.old) ≡ false }
    requires room { cache.old.accepted + length (S.items source.old) < 2 ^ 32 - 1 }
    ensures through { OnOk result (PutThrough (M.meaning cache.old.setup.map) cache.old.setup.settings (standing_of (S.items source.old) (S.answered source.old) cache.old.accepted (lent tables.old)) refused.old.items cache.new.accepted (lent tables.new) refused.new.items) }
    ensures same { SameSlices tables.old tables.new }
    ensures setup { cache.new.setup ≡ cache.old.setup }
{
    loop {
        match feed(cache, source, tables) {
            Ok(Fed::End) => return Ok(()),
            Ok(Fed::Accepted) => {}
            Err(fault) => refused.push(RefusedLine::from(fault))?,
        }
    }
}
