//! What a step of a search gives.
use zf_value::Value;
use zf_walk::Step;

/// How a step of a search ended, and the binding that it gave; no values where it gave none.
#[derive(Drop)]
pub struct Stepped {
    pub step: Step,
    pub row: Vec<Value>,
}
