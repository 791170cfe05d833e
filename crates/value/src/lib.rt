// Values of a running script, and the operators on them.
#![tactic(auto)]

pub mod binary;
pub mod kinds;
pub mod shows;
pub mod unary;
pub mod values;
