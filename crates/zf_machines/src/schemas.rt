//! The schemas of a machine.
use zf_term::Flat;

/// A schema with its name.
#[derive(Clone, Copy)]
pub struct Named<'p, 'a> {
    pub name: &'p [u8],
    pub schema: &'p Flat<'a>,
}

/// The schema of the state, that of the initial states, the operations, and what is sought among the states, if something is.
#[derive(Drop)]
pub struct Schemas<'p, 'a> {
    pub state: Named<'p, 'a>,
    pub init: Named<'p, 'a>,
    pub operations: Vec<Named<'p, 'a>>,
    pub sought: Option<Named<'p, 'a>>,
}
