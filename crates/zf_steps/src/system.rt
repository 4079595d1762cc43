//! What is explored of a specification.
use crate::form::Form;
use std::alloc::Global;
use zf_print::Spelling;

/// A schema whose bindings are steps, with which of its components are those of the state before, and which are those of the state after.
#[derive(Drop)]
pub struct Operation<'p, F> {
    pub name: &'p [u8],
    pub schema: &'p F,
    /// Of each component of the schema, which component of the state before it is, if it is one.
    pub sources: Vec<Option<usize>>,
    /// The places of the components of the state after, in their order.
    pub after: Vec<usize>,
    /// The places of those of neither.
    pub others: Vec<usize>,
    /// A schema of the latter alone. That of the test is the schema in whose components states are written.
    pub label: &'p F,
}

/// The schema by which each state is tested, that of the initial states, and the operations; with how elements are spelled, and the form in which all this is written.
#[derive(Drop)]
pub struct System<'s, 'p, F> {
    pub alloc: Global,
    pub elements: &'s [Spelling],
    pub form: Form,
    pub test: Operation<'p, F>,
    pub init: Operation<'p, F>,
    pub operations: Vec<Operation<'p, F>>,
}
