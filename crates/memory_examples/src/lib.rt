// Examples of the memory of a run: tests, and what callers can prove.
#![tactic(auto)]

pub mod callers;
#[cfg(test)]
mod lists;
#[cfg(test)]
mod stores;
