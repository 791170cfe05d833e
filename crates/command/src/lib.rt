// The handheld's command line: what its words mean, what it does, and what it says where it fails.
#![tactic(auto)]

pub mod failures;
pub mod fills;
pub mod requests;
pub mod words;
