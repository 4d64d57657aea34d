#![tactic(auto)]

ghost use Rattle.std.specs.Prelude.{◌≡◌, ℕ, List};
ghost use Rattle.trace.specs.Items.{block_of, number_of, Item};
ghost use Rattle.trace.specs.Next.{Given, Taken};
ghost use Rattle.trace.specs.Operations.{Reads};
ghost use Rattle.trace.specs.Records.{code};
ghost use Rattle.trace.specs.Text.{letter};
ghost use Rattle.trace.specs.declared.Fault.{Fault};

mod unread;

pub use unread::Unread;

// A block of memory, by its number: an address without its low bits.
#[derive(Clone, Copy, PartialEq, Eq)]
pub struct Block {
    pub number: u32,
}

impl Block {
    // The block of an address, where a block has 2^shift addresses.
    #[tactic(auto, using(crate::proofs::Blocks::shifted))]
    pub fn of(address: u32, shift: u32) -> Block
        ensures { result ≡ block_of shift address }
    {
        Block {
            number: address.checked_shr(shift).unwrap_or(0),
        }
    }
}

#[derive(Clone, Copy, PartialEq, Eq)]
pub enum Operation {
    Read,
    Write,
    Fetch,
}

// A byte or a letter that names no operation.
#[derive(Clone, Copy, Debug, PartialEq, Eq)]
pub struct UnknownOperation;

// The operation that a byte of a record names.
impl TryFrom<u8> for Operation {
    type Error = UnknownOperation;

    ghost try_from_gives = { λ byte r. Reads (code byte) r };

    fn try_from(byte: u8) -> Result<Operation, UnknownOperation> {
        match byte {
            0 => Ok(Operation::Read),
            1 => Ok(Operation::Write),
            2 => Ok(Operation::Fetch),
            _ => Err(UnknownOperation),
        }
    }
}

// The operation that a line's letter names.
impl TryFrom<char> for Operation {
    type Error = UnknownOperation;

    ghost try_from_gives = { λ c r. Reads (letter c) r };

    fn try_from(c: char) -> Result<Operation, UnknownOperation> {
        match c {
            'r' => Ok(Operation::Read),
            'w' => Ok(Operation::Write),
            'f' => Ok(Operation::Fetch),
            _ => Err(UnknownOperation),
        }
    }
}

// One line of a trace: which processor did what at which address.
#[derive(Clone, Copy, PartialEq, Eq)]
pub struct Reference {
    pub processor: u32,
    pub operation: Operation,
    pub address: u32,
}

// Why a call or a piece of a trace is refused; docs/REFUSALS.md has the table.
#[derive(Clone, Copy, Debug, PartialEq, Eq)]
pub enum Refusal {
    Setting = 1,
    Level = 2,
    ShortTable = 3,
    Processor = 4,
    Blocks = 5,
    Entries = 6,
    References = 7,
    Question = 8,
    Form = 9,
    Size = 10,
    CutOff = 11,
    Input = 12,
}

impl Refusal {
    // The number that is reported.
    pub fn number(self) -> u32
        ensures { result ≡ number_of self }
    {
        self as u32
    }
}

// The same number as a conversion, so that `u32::from` takes a refusal.
impl From<Refusal> for u32 {
    ghost from_gives = { λ e r. r ≡ number_of e };

    fn from(e: Refusal) -> u32 {
        e.number()
    }
}

// A refused set-up hands the map back.
#[derive(Drop)]
pub struct Refused<M> {
    pub map: M,
    pub refusal: Refusal,
}

// Who found a fault: the source that read the item, or the study that was fed it.
#[derive(Clone, Copy, PartialEq, Eq)]
pub enum Layer {
    Source,
    Study,
}

// A refused item: which one by the source's count, why, and who refused it. The number first: a list of many is a third shorter so.
#[derive(Clone, Copy, PartialEq, Eq)]
pub struct Fault {
    pub item: u64,
    pub refusal: Refusal,
    pub layer: Layer,
}

// What a feed answers where nothing is refused.
#[derive(Clone, Copy, PartialEq, Eq)]
pub enum Fed {
    Accepted,
    End,
}

// Where references come from: it means the items still to come and the count of those answered.
pub trait Source {
    ghost items: { Self → List Item };

    ghost answered: { Self → ℕ };

    // Removes, counts and answers the first item; with none left it answers the end and alters nothing.
    fn next(&mut self) -> Result<Option<Reference>, Fault>
        ensures { Given (items self.old) (answered self.old) result (items self.new) (answered self.new) };

    // How many items have been answered.
    fn count(&self) -> u64
        ensures { result ≡ answered self.now };
}

// Where faults are handed on to: it means those that it has taken, in order.
// A trait and no closure, since a clause has to name what was taken.
pub trait Sink {
    ghost taken: { Self → List Fault };

    // Takes one fault more, or hands it back and is as it was.
    fn take(&mut self, fault: Fault) -> Result<(), Fault>
        ensures { Taken (taken self.old) fault result (taken self.new) };
}
