//! Universal quantifiers over small closed sets, written out: a conjunction of what they say of each member.
#![tactic(auto)]

mod instance;
mod members;
mod quantifiers;
mod renaming;
mod unfolding;
mod worth;

pub use unfolding::unfold;
