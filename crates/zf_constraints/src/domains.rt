//! The declared sets of a component, and further ones.
ghost use Rattle.std.specs.Prelude.{◌≡◌, ◌++◌, IfOk, OnErr, OnOk};
ghost use Rattle.zf_constraints.specs.{enriched, with_domains};

use bumpalo::Bump;
use std::alloc::AllocError;
use std::mem;
use zf_data::arena::{Chunked, Shared};
use zf_term::{Component, Domain, Domains};

/// The component gains declared sets. An error leaves it with these alone.
pub fn enrich<'a>(
    arena: &'a Bump,
    component: &mut Component<'a>,
    domains: Domains<'a>,
) -> Result<(), AllocError>
    ensures gained { OnOk result (component.new ≡ enriched component.old domains.entry) }
    ensures refused { OnErr result (component.new ≡ with_domains component.old domains.entry) }
{
    let first = mem::replace(&mut component.domains, domains);
    component.domains = both(arena, first, component.domains.get())?;
    Ok(())
}

/// The declared sets of both lists. Where the first one has no other owner, it grows, so that a component that is declared often
/// costs no more for each time.
fn both<'a>(
    arena: &'a Bump,
    first: Domains<'a>,
    further: &Chunked<'a, Domain<'a>>,
) -> Result<Domains<'a>, AllocError>
    ensures { IfOk result (λ ds. ds ≡ first.entry ++ further.now) }
{
    let mut all = owned(first, further.len())?;
    all.append(further)?;
    Shared::new(arena, all)
}

/// The list itself where it has no other owner, and else another one of the same declared sets, with room for so many more.
fn owned<'a>(domains: Domains<'a>, more: usize) -> Result<Chunked<'a, Domain<'a>>, AllocError>
    ensures { IfOk result (λ ds. ds ≡ domains.entry) }
{
    match domains.into_value() {
        Ok(list) => Ok(list),
        Err(shared) => shared.get().share(more),
    }
}
