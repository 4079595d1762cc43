//! Predicates in which closed parts are names.
ghost use Rattle.std.specs.Prelude.{◌≡◌, IfOk, IfSome, OnOk, true, map};
ghost use Rattle.zf_lift.specs.Prelude.{resolved_of, environment_of};
ghost use Rattle.zf_lift.specs.{AreAllLifts, AreLifted, Follows, IsLonger};

use crate::lifting::{Gathered, lifted};
use crate::unlifted::Unlifted;
use bumpalo::Bump;
use std::alloc::{AllocError, Global};
use zf_data::arena::Lasting;
use zf_meaning::Env;
use zf_term::Resolved;

/// Predicates in which closed parts are names, and the environment in which these have the parts' outcomes.
#[derive(Drop)]
pub struct Lifted<'e, 'g, 'a> {
    pub terms: Vec<Resolved<'a>>,
    pub env: &'e Env<'g, 'a>,
}

/// The predicates with names for their closed parts, each of which is worked out. None if they have none.
pub fn lift<'e, 'g, 'a>(
    alloc: Global,
    arena: &'a Bump,
    terms: &[Resolved<'a>],
    env: &'e Env<'g, 'a>,
) -> Result<Option<Lifted<'e, 'g, 'a>>, AllocError>
    ensures { IfOk result (λ found. IfSome found (λ l. AreLifted (environment_of l.env.now) (environment_of env.now) (map resolved_of l.terms.items) (map resolved_of terms.now))) }
{
    match all_named(alloc, arena, terms, env) {
        Ok(found) => Ok(found),
        Err(Unlifted::Foreign) => Ok(None),
        Err(Unlifted::OutOfMemory) => Err(AllocError),
    }
}

fn all_named<'e, 'g, 'a>(
    alloc: Global,
    arena: &'a Bump,
    terms: &[Resolved<'a>],
    env: &'e Env<'g, 'a>,
) -> Result<Option<Lifted<'e, 'g, 'a>>, Unlifted>
    ensures { IfOk result (λ found. IfSome found (λ l. AreLifted (environment_of l.env.now) (environment_of env.now) (map resolved_of l.terms.items) (map resolved_of terms.now))) }
{
    let mut own = Gathered {
        env: env.copy(alloc)?,
        is_closed: true,
    };
    let terms = all_lifted(alloc, arena, terms, env, &mut own)?;
    if own.env.count() == env.count() {
        return Ok(None);
    }
    let env: &'e Env<'g, 'a> = kept(arena, own.env)?;
    Ok(Some(Lifted { terms, env }))
}

/// The environment, which lasts as long as the arena.
fn kept<'e, 'g, 'a>(arena: &'e Bump, env: Env<'g, 'a>) -> Result<&'e Env<'g, 'a>, AllocError>
    ensures { IfOk result (λ e. environment_of e.now ≡ environment_of env.entry) }
{
    let lasting = Lasting::new(arena, env)?;
    Ok(lasting.get())
}

/// The predicates in which closed parts are names, which get their outcomes.
fn all_lifted<'g, 'a>(
    alloc: Global,
    arena: &'a Bump,
    terms: &[Resolved<'a>],
    base: &Env<'g, 'a>,
    own: &mut Gathered<'g, 'a>,
) -> Result<Vec<Resolved<'a>>, Unlifted>
    ensures grows { OnOk result (Follows own.old own.new) }
    ensures same { IsLonger (environment_of base.now) (environment_of own.old.env) → IfOk result (λ ts. AreAllLifts 0 (environment_of own.new.env) (environment_of base.now) own.new.is_closed (map resolved_of ts.items) (map resolved_of terms.now)) }
{
    let mut all = Vec::with_capacity(alloc, terms.len())?;
    for term in terms {
        let part = lifted(term, arena, 0, base, own)?;
        all.push(part)?;
    }
    Ok(all)
}
