//! Schemas within the limits.
ghost use Rattle.std.specs.Prelude.{◌≡◌};
ghost use Rattle.zf_term.specs.{HasLeft, schema_of};

use crate::schema::Flat;
use std::marker::Model;

/// How much is left of the limits on declared sets and on nodes.
#[derive(Clone, Copy)]
pub struct Left {
    pub sets: usize,
    pub nodes: usize,
}

/// A schema within the limits that contracts see as the schema. It keeps what is left of them, so that nothing of it is counted again.
#[derive(Drop)]
pub struct Measured<'a> {
    flat: Flat<'a>,
    left: Left,
}

impl<'a> Model for Measured<'a> {
    ghost use denote.Signature.{static_lft};
    ghost use Rattle.zf_term.specs.LimitViews.{HasLeft};
    ghost use Rattle.zf_term.specs.SchemaViews.{schema_of};
    ghost use Rattle.zf_term.specs.contracts.schema.Flat as stored;
    ghost use Rattle.zf_term.specs.declared.schema.Flat as program;

    ghost Value = { program.Flat };

    ghost coded = { (stored.the_row static_lft).coded };

    ghost view = { λ m. m.flat };

    ghost invariant = { λ m. HasLeft (schema_of m.flat) m.left.sets m.left.nodes };
}

impl<'a> Measured<'a> {
    /// The schema, of whose limits so much is left.
    pub fn of(flat: Flat<'a>, left: Left) -> Measured<'a>
        requires { HasLeft (schema_of flat) left.sets left.nodes }
        ensures { result ≡ flat.entry }
    {
        Measured { flat, left }
    }

    pub fn flat(&self) -> &Flat<'a>
        ensures { result.now ≡ self.now }
    {
        &self.flat
    }

    /// How much is left of the limits.
    pub fn left(&self) -> Left
        ensures { HasLeft (schema_of self.now) result.sets result.nodes }
    {
        self.left
    }
}
