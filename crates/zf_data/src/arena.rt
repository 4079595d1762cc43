//! Lists, boxes and shared values that stand in an arena, and bytes that are lent. Nothing of them is dropped, and the arena keeps its chunks until the process ends.
mod boxed;
mod chunked;
mod items;
mod lasting;
mod lent;
mod nowhere;
mod shared;

pub use boxed::Boxed;
pub use chunked::{Chunked, ChunkedIter, Piece, Share};
pub use items::Items;
pub use lasting::Lasting;
pub use lent::Lent;
pub use shared::Shared;
