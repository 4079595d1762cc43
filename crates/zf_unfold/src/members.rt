//! The members of declared sets as names.
ghost use Rattle.std.specs.Prelude.{◌≡◌, ◌<◌, ℕ, IfOk, IfSome, IsTrue, OnOk, map};
ghost use Rattle.zf_term.specs.{resolved_of};
ghost use Rattle.zf_reference.specs.declared.reference.Reference.TheVariants as names;
ghost use Rattle.zf_value.specs.declared.value.Outcome.TheVariants.{Is};
ghost use Rattle.zf_meaning.specs.{environment_of, longer};
ghost use Rattle.zf_unfold.specs.{IsSetNamed};

use std::alloc::{AllocError, Global};
use zf_meaning::{Env, value_of};
use zf_reference::Reference;
use zf_term::Resolved;
use zf_value::{Outcome, Value};

/// The value of a declared set that is one of the first names.
pub(crate) fn set_named<'a>(
    set: &Resolved<'a>,
    count: usize,
    env: &Env<'_, 'a>,
) -> Result<Option<Value>, AllocError>
    ensures { IfOk result (λ found. IfSome found (IsSetNamed count (environment_of env.now) (resolved_of set.now))) }
{
    let Resolved::Name(_, reference) = set else {
        return Ok(None);
    };
    if !is_before(*reference, count) {
        return Ok(None);
    }
    let none: &[Value] = &[];
    match value_of(set, &none, env)? {
        Outcome::Is(value) => Ok(Some(value)),
        _ => Ok(None),
    }
}

/// Whether this is a global before this place.
fn is_before(reference: Reference, count: usize) -> bool
    ensures { IsTrue result → (i : ℕ) × (reference ≡ names.Global i) × (i < count) }
{
    match reference {
        Reference::Component(_) => false,
        Reference::Local(_) => false,
        Reference::Global(place) => place < count,
    }
}

/// Gives the next names these values.
pub(crate) fn add_members(
    alloc: Global,
    members: &[Value],
    own: &mut Env<'_, '_>,
) -> Result<(), AllocError>
    ensures { OnOk result (environment_of own.new ≡ longer (environment_of own.old) (map Is members.now)) }
{
    for member in members {
        let value = member.copy(alloc)?;
        own.add(Outcome::Is(value))?;
    }
    Ok(())
}
