//! The members of a set that an expression comes to.
ghost use Rattle.std.specs.Prelude.{◌≡◌, ◌⊎◌, [], ◌∷◌, IfOk, IfErr};
ghost use Rattle.zf_ranges.specs.Prelude.{IsAscending, IsMember, IsDescribed};
ghost use Rattle.zf_value.specs.declared.value.Outcome.TheVariants as outcome;
ghost use Rattle.zf_ranges.specs.{Filters, IsIn, IsListed, Lists, Tells};

use crate::kept::{Test, kept};
use crate::lack::Lack;
use std::alloc::{AllocError, Global};
use zf_outcome::Described;
use zf_value::{Outcome, Value};

/// Whether a value is a member of a set, which need not be there.
#[derive(Drop)]
pub(crate) struct InSet<'d, 'v> {
    pub(crate) set: &'d Described<'v>,
}

impl<'d, 'v> Test for InSet<'d, 'v> {
    ghost use Rattle.zf_outcome.specs.Described.{IsInDescribed, IsWithin};

    ghost passes = { λ t v. IsInDescribed t.set.now v };

    ghost ready = { λ t. IsWithin t.set.now };

    fn admits(&self, value: &Value) -> bool {
        self.set.has(value)
    }
}

/// The values that are members. What is undefined has none.
pub(crate) fn members_among(
    alloc: Global,
    values: &[Value],
    of: &Described<'_>,
) -> Result<Vec<Value>, Lack>
    requires { IsAscending values.now }
    ensures is { IfOk result (λ out. Filters of.now values.now out.items) }
    ensures out { IfErr result (λ lack. Tells lack (IsDescribed of.now outcome.Out)) }
{
    if of.is_out() {
        return Err(Lack::Out);
    }
    let test = InSet { set: of };
    Ok(kept(alloc, values, &test)?)
}

/// The members. What is undefined has none.
pub(crate) fn members_of(alloc: Global, of: Outcome) -> Result<Vec<Value>, Lack>
    ensures is { IfOk result (λ out. IsListed of (IsIn of) out.items) }
    ensures out { IfErr result (λ lack. Tells lack (of ≡ outcome.Out)) }
{
    match of {
        Outcome::Is(set) => Ok(set.into_members(alloc)?),
        Outcome::Undefined => Ok(Vec::new(alloc)),
        Outcome::Out => Err(Lack::Out),
    }
}

/// The same values.
pub(crate) fn copied(alloc: Global, values: &[Value]) -> Result<Vec<Value>, AllocError>
    ensures { IfOk result (λ out. out.items ≡ values.now) }
{
    let mut out = Vec::with_capacity(alloc, values.len())?;
    for value in values {
        out.push(value.copy(alloc)?)?;
    }
    Ok(out)
}

/// The value alone.
pub(crate) fn alone(alloc: Global, value: &Value) -> Result<Vec<Value>, AllocError>
    ensures { IfOk result (λ out. out.items ≡ value.now ∷ []) }
{
    let mut out = Vec::new(alloc);
    out.push(value.copy(alloc)?)?;
    Ok(out)
}

/// The members of both, in ascending order.
pub(crate) fn merged(mut left: Vec<Value>, right: Vec<Value>) -> Result<Vec<Value>, AllocError>
    ensures { IfOk result (λ out. Lists (λ v. IsMember v left.items ⊎ IsMember v right.items) out.items) }
{
    let mut right = right;
    left.append(&mut right)?;
    left.sort()?;
    left.dedup();
    Ok(left)
}
