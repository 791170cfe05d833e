// Refusals and run faults with the record at fault, and what they say to a mechanic or a script writer.
#![tactic(auto)]

pub mod refusals;
pub mod shows;
