ghost use Rattle.std.specs.Prelude.{◌≡◌};
ghost use Rattle.text.specs.declared.faults.LineFault.TheVariants.{Field};
ghost use Rattle.text.specs.Told.{refusal_of, told};

use trace::{Fault, Layer, Refusal};

// What is wrong with a field.
#[derive(Clone, Copy, PartialEq, Eq)]
pub enum Wrong {
    Form,
    Size,
}

// The innermost of the layers that a fault passes by ?: a refused field, and the item of the trace that it stands in.
#[derive(Clone, Copy, PartialEq, Eq)]
pub struct FieldFault {
    pub item: u64,
    pub wrong: Wrong,
}

impl FieldFault {
    pub(crate) fn new(item: u64, wrong: Wrong) -> FieldFault
        ensures { result ≡ record { item = item; wrong = wrong } }
    {
        FieldFault { item, wrong }
    }
}

// A refused line: it has not three fields, a field is refused, or no line feed ends it.
#[derive(Clone, Copy, PartialEq, Eq)]
pub enum LineFault {
    Fields { item: u64 },
    Field(FieldFault),
    CutOff { item: u64 },
}

impl From<FieldFault> for LineFault {
    ghost from_gives = { λ e r. r ≡ Field e };

    fn from(e: FieldFault) -> LineFault {
        LineFault::Field(e)
    }
}

// For a line that is no item of a trace.
impl From<FieldFault> for Refusal {
    ghost from_gives = { λ e r. r ≡ refusal_of e.wrong };

    fn from(e: FieldFault) -> Refusal {
        match e.wrong {
            Wrong::Form => Refusal::Form,
            Wrong::Size => Refusal::Size,
        }
    }
}

impl From<LineFault> for Fault {
    ghost from_gives = { λ e r. r ≡ told e };

    fn from(e: LineFault) -> Fault {
        let (refusal, item) = match e {
            LineFault::Fields { item } => (Refusal::Form, item),
            LineFault::Field(fault) => (Refusal::from(fault), fault.item),
            LineFault::CutOff { item } => (Refusal::CutOff, item),
        };
        Fault {
            refusal,
            item,
            layer: Layer::Source,
        }
    }
}
