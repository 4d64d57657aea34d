#![tactic(auto)]

ghost use Rattle.std.specs.Prelude.{◌≡◌, ℕ, ◌<◌, false, not, ◌&&◌, ◌||◌, nat_lt};
ghost use Rattle.levels.specs.Levels.{has, no_level, below, both, either, less, is_none};

// A map offers so many levels at most. Clauses write the number.
pub const LEVELS: usize = 17;

// A set of levels: bit i stands for level i.
#[derive(Clone, Copy, PartialEq, Eq)]
pub struct Levels {
    pub bits: u32,
}

// Methods and no operators, whose contract is one clause with no name.
// Those of two sets differ in the operation and its definition alone: one for all would take both from its caller.
impl Levels {
    pub fn none() -> Levels
        ensures value { result ≡ no_level }
        ensures levels { (i : ℕ) → has result i ≡ false }
    {
        Levels { bits: 0 }
    }

    // The levels 0 to n - 1, of 32 at most.
    pub fn below(n: u32) -> Levels
        ensures value { result ≡ below n }
        ensures levels { (i : ℕ) → i < 32 → has result i ≡ nat_lt i n }
    {
        if n < 32 {
            Levels { bits: (1 << n) - 1 }
        } else {
            Levels { bits: u32::MAX }
        }
    }

    // A level of 32 or more is in no set.
    pub fn has(self, level: u32) -> bool
        ensures { result ≡ has self level }
    {
        level < 32 && (self.bits >> level) % 2 == 1
    }

    #[tactic(auto, unfolding(crate::specs::Levels::both))]
    pub fn both(self, other: Levels) -> Levels
        ensures value { result ≡ both self other }
        ensures levels { (i : ℕ) → has result i ≡ (has self i && has other i) }
    {
        Levels {
            bits: self.bits & other.bits,
        }
    }

    #[tactic(auto, unfolding(crate::specs::Levels::either))]
    pub fn either(self, other: Levels) -> Levels
        ensures value { result ≡ either self other }
        ensures levels { (i : ℕ) → has result i ≡ (has self i || has other i) }
    {
        Levels {
            bits: self.bits | other.bits,
        }
    }

    // The levels that `other` lacks.
    #[tactic(auto, using(crate::proofs::Bits::less_bits), unfolding(crate::specs::Levels::less))]
    pub fn less(self, other: Levels) -> Levels
        ensures value { result ≡ less self other }
        ensures levels { (i : ℕ) → has result i ≡ (has self i && not (has other i)) }
    {
        Levels {
            bits: self.bits & !other.bits,
        }
    }

    pub fn is_none(self) -> bool
        ensures { result ≡ is_none self }
    {
        self.bits == 0
    }
}
