#![tactic(auto)]

pub mod causes;
pub mod errors;
pub mod faults;
pub mod layers;
pub mod reasons;
