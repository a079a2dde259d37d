// Input and output of the programs: files read into a lent buffer, text written to standard output, and messages on standard error.
#![tactic(auto)]

pub mod handing;
pub mod holding;
pub mod input;
pub mod inputs;
mod message;
pub mod output;
pub mod telling;
#[cfg(test)]
mod tests;
