//! Why a schema has no binding: the components without a value, the conjuncts that rule out everything alone, or a minimal set of conjuncts that can't hold together.
#![tactic(auto)]

mod beside;
mod cause;
mod explaining;
mod held_row;
mod operands;
mod part;
mod question;
mod setting;
mod sides;
mod telling;
mod told;
mod unheld;

pub use cause::Cause;
pub use explaining::why;
pub use part::Part;
pub use question::Question;
pub use told::{Operand, Operands, Side, Told};
