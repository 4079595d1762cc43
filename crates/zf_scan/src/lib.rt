//! From bytes to tokens: `symbols` and `scan` give the tokens that a source is cut into.
#![tactic(auto)]

mod fault;
mod inside;
mod laid;
mod next;
mod outside;
mod pieces;
mod placed;
mod refused;
pub mod scan;
mod signs;
mod symbols;
mod token;

pub use fault::{TextFault, TextFaultKind};
pub use laid::{Laid, lay_out};
pub use next::{Mark, Next};
pub use placed::Placed;
pub use refused::{refused_at, refused_place};
pub use scan::Border;
pub use token::{Kind, Separator, Token};
