//! What is asked of a schema that has no binding.

use zf_value::Value;

/// The values that are held, and whether what the operands of relations come to is reported.
#[derive(Drop)]
pub struct Question<'s> {
    pub held: &'s [Option<Value>],
    pub details: bool,
}
