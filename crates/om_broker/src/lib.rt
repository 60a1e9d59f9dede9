//! Brokers: whoever hands the pages of an arena to a pool, and takes them back.
#![tactic(auto)]

mod broker;
mod home;
mod lone;
#[cfg(test)]
mod tests;
mod zones;

pub use broker::{Broker, Claim, ClaimAt};
pub use lone::{LONE_SHARE, LoneBroker};
