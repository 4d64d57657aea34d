ghost use Rattle.std.specs.Prelude.{◌≡◌, false, [], IfOk, None, Ok, Err};
ghost use Rattle.grid_report.specs.Grids.{grid_refusal, NotOpened, HasRead};
ghost use Rattle.sheets.specs.Settings.{settings_of};
ghost use Rattle.sheets.specs.Steps.{lists_of};
ghost use Rattle.tables.specs.Calls.{short, unlimited};

use super::{Grid, OpenError};
use cutting::Form;
use setmap::SetMap;
use sheets::{OwnTables, SheetStudy, Sizes};
use std::alloc::{AllocError, Global};
use trace::Refusal;

// Refuses the sizes of which there is no study: on no tables it is refused for want of them only where nothing else is amiss.
fn refuse_sizes<M: SetMap + Copy>(heap: Global, map: M, sizes: Sizes) -> Result<(), OpenError>
    ensures { elim result [ Ok x ↦ grid_refusal (M.meaning map) (settings_of sizes) ≡ None | Err y ↦ NotOpened (M.meaning map) (settings_of sizes) y ] }
{
    let none = OwnTables::new(heap, 0, 0, 0, 0)?;
    match SheetStudy::set_up(map, sizes, none) {
        Ok(_) | Err(Refusal::ShortTable) => Ok(()),
        Err(refusal) => Err(OpenError::from(refusal)),
    }
}

// Tables as long as a study of these sizes asks for. The lengths are those that a set-up checks: a study tells no caller its sizes.
fn fitting_tables(heap: Global, sizes: Sizes) -> Result<OwnTables, AllocError>
    requires { unlimited (settings_of sizes) ≡ false }
    ensures { IfOk result (λ t. short (settings_of sizes) (lists_of t) ≡ false) }
{
    let processors = sizes.processors as usize;
    let levels = sizes.levels as usize;
    let blocks = sizes.blocks as usize;
    let row = 2 * levels * sizes.ways as usize + 3;
    OwnTables::new(
        heap,
        processors * (levels * blocks),
        blocks,
        processors * blocks,
        processors * row,
    )
}

impl<M: SetMap + Copy> Grid<M> {
    // A grid of a study of these sizes, for a trace in this form. The sizes are refused as a set-up refuses them; want of memory is an error of its own.
    pub fn open(heap: Global, map: M, sizes: Sizes, form: Form) -> Result<Grid<M>, OpenError>
        ensures { elim result [ Ok x ↦ (grid_refusal (M.meaning map) (settings_of sizes) ≡ None) × (x.study.map ≡ map) × (x.study.settings ≡ settings_of sizes) × (x.form ≡ form) × HasRead (M.meaning map) x [] [] | Err y ↦ NotOpened (M.meaning map) (settings_of sizes) y ] }
    {
        refuse_sizes(heap, map, sizes)?;
        let tables = fitting_tables(heap, sizes)?;
        let study = SheetStudy::set_up(map, sizes, tables)?;
        Ok(Grid {
            study,
            form,
            held: Vec::new(heap),
            count: 0,
        })
    }
}
