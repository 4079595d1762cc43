//! Which parts of bindings are asked for.
use zf_term::Flat;
use zf_value::Value;

/// A schema, and those of its components whose values are a part: their places, and the schema of them alone. Of the parts those are asked for that come after the named one, if one is named.
#[derive(Clone, Copy)]
pub struct Parts<'p, 'a> {
    pub flat: &'p Flat<'a>,
    pub places: &'p [usize],
    pub schema: &'p Flat<'a>,
    pub after: Option<&'p [Value]>,
}

/// Parts, and how many of them at most, if there is a limit.
#[derive(Clone, Copy)]
pub struct Wanted<'p, 'a> {
    pub parts: Parts<'p, 'a>,
    pub limit: Option<u64>,
}
