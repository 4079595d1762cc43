//! What is reported of a conjunct that is to blame.

use crate::part::Part;
use zf_tree::Span;
use zf_value::Outcome;

/// A conjunct that is to blame.
#[derive(Drop)]
pub struct Told {
    pub part: Part,
    /// Of a disjunction of schemas its sides, from left to right.
    pub sides: Vec<Side>,
    /// Where details are asked for, and it is a relation that names held components alone.
    pub operands: Option<Operands>,
}

/// One side of a disjunction of schemas.
#[derive(Drop)]
pub struct Side {
    /// Where its schema expression stands.
    pub span: Span,
    /// A minimal set of its conjuncts that can't hold together with what else is to blame.
    pub blamed: Vec<Part>,
}

/// What is reported of the operands of a relation.
#[derive(Drop)]
pub struct Operands {
    pub left: Outcome,
    pub right: Operand,
}

/// What is reported of an operand.
#[derive(Drop)]
pub enum Operand {
    /// What it comes to.
    Comes(Outcome),
    /// Of a set that is out of bounds, and is only tested for a member or a subset, where it stands.
    Stands(Span),
}
