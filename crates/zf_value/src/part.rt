//! The parts of members that operations test and give.
ghost use Rattle.std.specs.Prelude.{◌↔◌, IsTrue, IfOk};
ghost use Rattle.zf_value.specs.{GivesJust, IsAscending, IsGathered, IsKept, IsPartOf, IsSelected};

use crate::set::is_found;
use crate::value::Value;
use std::alloc::{AllocError, Global};

/// A member, or the first or second of a member that is a pair.
#[derive(Clone, Copy)]
pub(crate) enum Part {
    Whole,
    First,
    Second,
}

/// Which are kept: the members of a set, or all others.
#[derive(Clone, Copy)]
pub(crate) enum Keep {
    Members,
    Others,
}

/// Which values are selected, by a part that is tested against a set, and what is given of them.
#[derive(Clone, Copy)]
pub(crate) struct Selection<'s> {
    pub test: Part,
    pub keep: Keep,
    pub set: &'s [Value],
    pub given: Part,
}

impl Part {
    pub(crate) fn of<'a>(self, z: &'a Value) -> Option<&'a Value>
        ensures { GivesJust (IsPartOf self z.now) result }
    {
        match self {
            Part::Whole => Some(z),
            Part::First => match z.pair() {
                Some((x, _)) => Some(x),
                None => None,
            },
            Part::Second => match z.pair() {
                Some((_, y)) => Some(y),
                None => None,
            },
        }
    }
}

impl Keep {
    fn keeps(self, p: &Value, set: &[Value]) -> bool
        requires { IsAscending set.now }
        ensures { IsTrue result ↔ IsKept self set.now p.now }
    {
        match self {
            Keep::Members => is_found(p, set),
            Keep::Others => !is_found(p, set),
        }
    }
}

impl Selection<'_> {
    /// What is given of the value, if it is selected.
    fn of<'a>(&self, z: &'a Value) -> Option<&'a Value>
        requires { IsAscending self.now.set.now }
        ensures { GivesJust (IsSelected self.now.test self.now.keep self.now.set.now self.now.given z.now) result }
    {
        let p = self.test.of(z)?;
        if self.keep.keeps(p, self.set) {
            self.given.of(z)
        } else {
            None
        }
    }
}

/// The parts of these values.
pub(crate) fn parts(alloc: Global, values: &[Value], part: Part) -> Result<Vec<Value>, AllocError>
    ensures { IfOk result (λ out. IsGathered (IsPartOf part) values.now out.items) }
{
    let mut out = Vec::new(alloc);
    for z in values {
        if let Some(p) = part.of(z) {
            out.push(p.copy(alloc)?)?;
        }
    }
    Ok(out)
}

/// What is given of these values that are selected.
pub(crate) fn selected(
    alloc: Global,
    values: &[Value],
    selection: &Selection<'_>,
) -> Result<Vec<Value>, AllocError>
    requires { IsAscending selection.now.set.now }
    ensures { IfOk result (λ out. IsGathered (IsSelected selection.now.test selection.now.keep selection.now.set.now selection.now.given) values.now out.items) }
{
    let mut out = Vec::new(alloc);
    for z in values {
        if let Some(w) = selection.of(z) {
            out.push(w.copy(alloc)?)?;
        }
    }
    Ok(out)
}
