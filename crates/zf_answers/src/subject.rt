//! A schema in an environment.

use bumpalo::Bump;
use zf_lines::Style;
use zf_meaning::Env;
use zf_term::Flat;
use zf_value::Value;

/// A schema in an environment, of which some values are held, and in which style its rows are written.
#[derive(Drop)]
pub struct Subject<'s, 'g, 'a> {
    pub arena: &'a Bump,
    pub schema: &'s Flat<'a>,
    pub env: &'s Env<'g, 'a>,
    pub style: &'s Style<'s>,
    pub held: &'s [Option<Value>],
}
