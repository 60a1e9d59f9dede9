//! Option letters, as in the manual of malloc(3): which options a string of them gives.
#![tactic(auto)]

mod options;
mod reading;

pub use options::Opts;
pub use reading::{Parsed, parse};

#[cfg(test)]
mod tests;
