// Examples of the links, run as tests.
#![tactic(auto)]

#[cfg(test)]
mod benches;
#[cfg(test)]
mod tapes;
