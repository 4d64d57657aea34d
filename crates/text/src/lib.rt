// The reader of text traces: a line `processor,operation,address` for each reference.
#![tactic(auto)]

pub mod cut;
pub mod faults;
pub mod fields;
pub mod line;
pub mod source;
pub mod worked;
