//! Conjuncts with quantifiers written out, and properties in which closed parts are names.
ghost use Rattle.std.specs.Prelude.{◌≡◌, ◌<◌, ◌^◌, ℕ, IfOk, map, slice_get};
ghost use Rattle.zf_instances.specs.Prelude.{resolved_of, schema_of, environment_of};
ghost use Rattle.zf_lift.specs.{AreLifted};
ghost use Rattle.zf_enum.specs.{due_of};

use bumpalo::Bump;
use std::alloc::{AllocError, Global};
use zf_enum::{Property, property_of, resolved};
use zf_lift::{Lifted, lift};
use zf_meaning::Env;
use zf_term::{Flat, Resolved};
use zf_unfold::unfold;

/// The conjuncts of a schema, with quantifiers over small closed sets written out where that is worth it.
pub(crate) fn unfolded<'e, 'g, 'a>(
    alloc: Global,
    arena: &'a Bump,
    flat: &Flat<'a>,
    env: &'e Env<'g, 'a>,
) -> Result<Lifted<'e, 'g, 'a>, AllocError>
    ensures { IfOk result (λ l. AreLifted (environment_of l.env.now) (environment_of env.now) (map resolved_of l.terms.items) (schema_of flat.now).conjuncts) }
{
    let conjuncts = flat.conjuncts.flat()?;
    let terms = resolved(alloc, arena, conjuncts.as_slice())?;
    match unfold(alloc, arena, &terms, env) {
        Some(unfolded) => Ok(unfolded),
        None => {
            let plain: Lifted<'e, 'g, 'a> = Lifted { terms, env };
            Ok(plain)
        }
    }
}

/// The predicates as conjuncts, with names for their closed parts, unless the search asks for none of these.
pub(crate) fn lifted<'e, 'g, 'a>(
    alloc: Global,
    arena: &'a Bump,
    conjuncts: Vec<Resolved<'a>>,
    env: &'e Env<'g, 'a>,
    is_hopeless: bool,
) -> Result<Property<'e, 'g, 'a>, AllocError>
    requires small { (c : ℕ) → due_of (slice_get (map resolved_of conjuncts.items) c) < 2 ^ 64 }
    ensures { IfOk result (λ p. AreLifted (environment_of p.env.now) (environment_of env.now) (map resolved_of p.conjuncts) (map resolved_of conjuncts.entry.items)) }
{
    if is_hopeless {
        return property_of(alloc, arena, conjuncts, env);
    }
    match lift(alloc, arena, conjuncts.as_slice(), env)? {
        None => property_of(alloc, arena, conjuncts, env),
        Some(lifted) => {
            let Lifted { terms, env } = lifted;
            property_of(alloc, arena, terms, env)
        }
    }
}
