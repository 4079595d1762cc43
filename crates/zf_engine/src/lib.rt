//! From the bytes of a reader to the bytes of a writer.
#![tactic(auto)]

mod answer;
pub mod program;
mod reach;
pub mod run;
