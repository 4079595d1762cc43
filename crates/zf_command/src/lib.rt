//! The words of the command line: `job_of` gives the file and the job that they ask for, and `why_refused` says what is
//! wrong with words that ask for none.
#![tactic(auto)]

mod asked;
mod clashes;
mod command;
mod job;
mod limit;
mod matches;
mod numerals;
mod refused;
mod sizes;

pub use asked::job_of;
pub use job::{Asked, Exploration, Job, Request, Setting, Size, UsageFault};
pub use limit::STATES_MAX;
pub use refused::{UNREAD, why_refused};
