// The memory of a running script: cells for variables and for `new`, findings, and the request that is being put together.
#![tactic(auto)]

pub mod cell;
pub mod findings;
mod fits;
pub mod layouts;
pub mod requests;
pub mod stores;
