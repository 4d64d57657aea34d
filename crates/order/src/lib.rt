// Tables in order: definitions, the proofs that a reference keeps them so, and code that looks whether they are; docs/ARCHITECTURE.md tells who uses them.
#![tactic(auto)]

ghost use Rattle.order.specs.Keeps.{OrderKept};

pub mod hints;
pub mod known;
pub mod rows;

// References and writes keep tables in order, and a write of a block that is not marked as held changes nothing.
pub fn order_is_kept()
    ensures { OrderKept }
{}
