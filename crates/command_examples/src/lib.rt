// Examples of the command line and of what is printed, run as tests.
#![tactic(auto)]

#[cfg(test)]
mod commands;
