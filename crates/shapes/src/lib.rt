// How types lie in cells: a scalar, a count of an element, a sequence of components.
#![tactic(auto)]

pub mod forms;
pub mod laid;
pub mod tables;
