//! What several terms make: tuples, displays and products.
ghost use Rattle.std.specs.Prelude.{◌≡◌, IfOk, IfErr, length, map};
ghost use Rattle.zf_typing.specs.Prelude.{tree_of, trees, power, resolved_of, Ty, type_of, IfFault, Meets, sort_of};
ghost use Rattle.zf_tree.specs.Trees as tree;
ghost use Rattle.zf_term.specs.ResolvedViews as kept;
ghost use Rattle.zf_term.specs.Types as tys;
ghost use Rattle.zf_typing.specs.{AreMembers, DiffersAt, Judges, Makes, member_sort, OneOffends, resolved_all, scope_of};
ghost use Rattle.zf_typing.specs.Scopes as spec;
ghost use Rattle.zf_typing.specs.Typing as typing;

use super::{Judged, Place, judge_term, made};
use crate::scope::Scope;
use bumpalo::Bump;
use std::alloc::AllocError;
use zf_data::arena::{Boxed, Items};
use zf_sorts::{Offence, Refusal, Sort, refused};
use zf_term::{Resolved, ZType, product_type, set_type};
use zf_tree::{Listed, Need, Span, Term};

/// The members of one term, and the types that they are given by: of a set that of its members.
#[derive(Drop)]
struct Members<'a> {
    resolved: Items<'a, Resolved<'a>>,
    types: Items<'a, ZType<'a>>,
}

/// What several terms make.
#[cycle(judging)]
#[inline(never)]
pub(super) fn listed<'a>(
    terms: &[Boxed<'a, Term<'a>>],
    arena: &'a Bump,
    place: Place,
    form: Listed,
    scope: &mut Scope<'a, '_>,
) -> Result<Judged<'a>, Refusal<'a>>
    ensures judged { Judges (scope_of scope.old) place.need (tree.listed place.span form (trees (map tree_of terms.now))) result }
    ensures scope { scope_of scope.new ≡ scope_of scope.old }
{
    let members = judge_all(terms, arena, form, scope)?;
    with_members(arena, place, form, terms, members)
}

#[cycle(judging)]
fn judge_all<'a>(
    terms: &[Boxed<'a, Term<'a>>],
    arena: &'a Bump,
    form: Listed,
    scope: &mut Scope<'a, '_>,
) -> Result<Members<'a>, Refusal<'a>>
    ensures ok { IfOk result (λ ms. AreMembers form (scope_of scope.old) (trees (map tree_of terms.now)) (tys.types (map type_of ms.types))) }
    ensures resolved { IfOk result (λ ms. kept.terms (map resolved_of ms.resolved) ≡ resolved_all (scope_of scope.old) (trees (map tree_of terms.now))) }
    ensures wrong { IfErr result (λ e. IfFault e (λ offence span. OneOffends (scope_of scope.old) (typing.member_need form) (trees (map tree_of terms.now)) offence span)) }
    ensures scope { scope_of scope.new ≡ scope_of scope.old }
{
    let mut resolved = Items::with_room(arena, terms.len())?;
    let mut types = Items::with_room(arena, terms.len())?;
    for member in terms {
        let Judged { term, sort } = judge_term(member.get(), arena, member_need(form), scope)?;
        types.push(member_type(form, sort)?)?;
        resolved.push(term)?;
    }
    Ok(Members { resolved, types })
}

fn member_need(form: Listed) -> Need
    ensures { result ≡ typing.member_need form }
{
    match form {
        Listed::Tuple | Listed::Display => Need::Expression,
        Listed::Product => Need::Set,
    }
}

/// The type that is kept of a member.
fn member_type<'a>(form: Listed, sort: Sort<'a>) -> Result<ZType<'a>, AllocError>
    requires { Meets (typing.member_need form) (sort_of sort) }
    ensures { IfOk result (λ t. sort_of sort.entry ≡ member_sort form (type_of t)) }
{
    let Sort::Typed(ztype) = sort else {
        unreachable!();
    };
    match form {
        Listed::Tuple | Listed::Display => Ok(ztype),
        Listed::Product => element(&ztype),
    }
}

/// The type of a set's members.
#[tactic(auto, using(zf_term::proofs::TypesSeen::seen))]
fn element<'a>(ztype: &ZType<'a>) -> Result<ZType<'a>, AllocError>
    requires { (u : Ty) × (type_of ztype.now ≡ power u) }
    ensures { IfOk result (λ t. type_of ztype.now ≡ power (type_of t)) }
{
    match ztype.member() {
        Some(members) => members.share(),
        None => unreachable!(),
    }
}

/// The rule of what makes one term out of several.
#[tactic(auto, using(crate::proofs::Judging::from_memory))]
fn with_members<'a>(
    arena: &'a Bump,
    place: Place,
    form: Listed,
    terms: &[Boxed<'a, Term<'a>>],
    members: Members<'a>,
) -> Result<Judged<'a>, Refusal<'a>>
    requires { length terms.now ≡ length members.types }
    ensures { (s : spec.Scope) → AreMembers form s (trees (map tree_of terms.now)) (tys.types (map type_of members.entry.types)) → kept.terms (map resolved_of members.entry.resolved) ≡ resolved_all s (trees (map tree_of terms.now)) → Judges s place.need (tree.listed place.span form (trees (map tree_of terms.now))) result }
{
    let ztype = made_of(arena, form, place.span, terms, members.types)?;
    let term = Resolved::Listed(place.span, form, Boxed::new(arena, members.resolved)?);
    made(arena, place, Sort::Typed(ztype), term)
}

/// The type of what members of these types make.
#[tactic(auto, using(zf_term::proofs::TypesSeen::seen))]
fn made_of<'a>(
    arena: &'a Bump,
    form: Listed,
    span: Span,
    terms: &[Boxed<'a, Term<'a>>],
    types: Items<'a, ZType<'a>>,
) -> Result<ZType<'a>, Refusal<'a>>
    requires { length terms.now ≡ length types }
    ensures ok { IfOk result (λ t. Makes form (tys.types (map type_of types.entry)) (type_of t)) }
    ensures wrong { IfErr result (λ e. IfFault e (λ offence m. (form ≡ Listed.Display) × DiffersAt span (map tree_of terms.now) (tys.types (map type_of types.entry)) offence m)) }
{
    match form {
        Listed::Tuple => Ok(product_type(arena, types)?),
        Listed::Product => Ok(set_type(arena, product_type(arena, types)?)?),
        Listed::Display => set_of(arena, span, terms, types.as_slice()),
    }
}

/// The type of a set of these members.
#[tactic(auto, using(zf_term::proofs::TypesSeen::seen))]
fn set_of<'a>(
    arena: &'a Bump,
    span: Span,
    terms: &[Boxed<'a, Term<'a>>],
    types: &[ZType<'a>],
) -> Result<ZType<'a>, Refusal<'a>>
    requires { length terms.now ≡ length types.now }
    ensures ok { IfOk result (λ t. Makes Listed.Display (tys.types (map type_of types.now)) (type_of t)) }
    ensures wrong { IfErr result (λ e. IfFault e (λ offence m. DiffersAt span (map tree_of terms.now) (tys.types (map type_of types.now)) offence m)) }
{
    let Some(first) = types.first() else {
        return Err(refused(arena, Offence::NoMembers, span));
    };
    for place in 1..types.len() {
        let other = &types[place];
        if !first.same(other) {
            let span = terms[place].get().span();
            let first = Sort::Typed(first.share()?);
            let other = Sort::Typed(other.share()?);
            return Err(refused(arena, Offence::Mismatch(first, other), span));
        }
    }
    Ok(set_type(arena, first.share()?)?)
}
