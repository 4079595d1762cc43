//! What no contract says of single calls, shown by tests with devices that fail at a stated place.
#![tactic(auto)]

pub mod devices;
#[cfg(test)]
mod tests;
