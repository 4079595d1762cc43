//! What contracts see of a value.
use crate::items::Items;

/// A value whose sets may be any lists: what contracts see of a value. No code makes one.
#[derive(PartialEq, Eq, PartialOrd, Ord, Hash, Drop)]
pub enum Value {
    Int(i64),
    /// An element of a given set or free type: the number of the type, and the element's place in it, from 0.
    Elem(u32, u64),
    Tuple(Items<Value>),
    SetOf(Items<Value>),
}
