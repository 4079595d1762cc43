//! The kinds of faults of types, and what some of them are about.
use crate::ztype::ZType;
use thiserror::Error;
use zf_data::arena::Lent;

/// Why a paragraph or box is not well typed.
#[derive(Clone, Copy, Debug, PartialEq, Eq, Error)]
pub enum TypeFaultKind {
    #[error("name not declared")]
    NotDeclared,
    #[error("name already defined")]
    AlreadyDefined,
    #[error("types differ")]
    Mismatch,
    #[error("a set is needed")]
    NotASet,
    #[error("a number is needed")]
    NotANumber,
    #[error("a relation is needed")]
    NotARelation,
    #[error("a predicate is needed")]
    NotAPredicate,
    #[error("an expression is needed")]
    NotAnExpression,
    #[error("component has two types")]
    ComponentClash,
    #[error("a schema is needed")]
    NotASchema,
    #[error("variable declared twice")]
    LocalTwice,
    #[error("too large")]
    TooLarge,
}

/// A limit on types and schemas.
#[derive(Clone, Copy)]
pub enum Limit {
    /// 256 nodes in a type.
    TypeNodes,
    /// 64 components in a schema.
    Components,
    /// 4,096 declared sets in a schema.
    Sets,
    /// 4,096 conjuncts in a schema.
    Conjuncts,
    /// 65,536 nodes of all terms in a schema.
    Nodes,
    /// A height of 256 of a conjunct.
    Height,
}

/// A component that has two types.
#[derive(Drop)]
pub struct Clash<'a> {
    /// The name as spelled, with its strokes.
    pub name: Lent<'a>,
    pub left: ZType<'a>,
    pub right: ZType<'a>,
}
