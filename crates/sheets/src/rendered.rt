ghost use Rattle.std.specs.Prelude.{◌≡◌, Some, refl};
ghost use Rattle.sheets.specs.Sheets.{heading, row_shown};

use super::Row;
use caches::Figures;
use std::fmt;

// Without its line feed.
impl fmt::Display for Row {
    ghost output = { λ r. Some (row_shown r) };

    fn fmt<W: fmt::Write>(&self, f: &mut fmt::Formatter<W>) -> fmt::Result {
        let Figures {
            references,
            hits,
            drops,
            cold,
            lost,
            replaced,
        } = self.figures;
        write!(
            f,
            "{},{},{},{},{references},{hits},{drops},{cold},{lost},{replaced}",
            self.processor, self.level, self.sets, self.ways
        )
    }
}

impl report::Row for Row {
    ghost heading = { heading };

    ghost text = { row_shown };

    ghost shows = { λ x. refl };

    fn heading() -> &'static str {
        "processor,level,sets,ways,references,hits,drops,cold,lost,replaced"
    }
}
