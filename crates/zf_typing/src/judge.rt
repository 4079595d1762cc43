//! What a term is by the typing rules, or an offence against them.
ghost use Rattle.std.specs.Prelude.{◌≡◌, IfOk, IfErr};
ghost use Rattle.zf_typing.specs.Prelude.{named, numeral, spelling, Tree, tree_of, not_declared, resolved_of, too_large, IfFault, IsRefusal, IsSmallSort, Meets, sort_of};
ghost use Rattle.zf_tree.specs.Trees as tree;
ghost use Rattle.zf_typing.specs.{IsOf, Judges, Offends, resolved, scope_of};
ghost use Rattle.zf_typing.specs.Scopes as spec;

mod binders;
mod chains;
mod lists;
mod operands;

use crate::like::name_like;
use crate::scope::Scope;
use binders::{comprehension, quantified};
use bumpalo::Bump;
use chains::chain;
use lists::listed;
use operands::{binary, unary};
use zf_data::arena::Boxed;
use zf_sorts::{Offence, Refusal, Sort, constant_sort, misplaced, refused, refused_name};
use zf_term::{Limit, Resolved, ZType};
use zf_tree::{Constant, Name, Need, Span, Term};

/// A term in which each name says what it stands for, and what the term is.
#[derive(Drop)]
pub struct Judged<'a> {
    pub term: Resolved<'a>,
    pub sort: Sort<'a>,
}

/// What the place of a term needs, and where it is.
#[derive(Clone, Copy)]
struct Place {
    need: Need,
    span: Span,
}

/// What the term is where this is needed, and the term with what its names stand for.
pub fn judge<'a>(
    term: &Term<'a>,
    arena: &'a Bump,
    need: Need,
    scope: &mut Scope<'a, '_>,
) -> Result<Judged<'a>, Refusal<'a>>
    ensures sort { IfOk result (λ j. IsOf (scope_of scope.old) (tree_of term.now) (sort_of j.sort)) }
    ensures met { IfOk result (λ j. Meets need (sort_of j.sort)) }
    ensures term { IfOk result (λ j. resolved_of j.term ≡ resolved (scope_of scope.old) (tree_of term.now)) }
    ensures wrong { IfErr result (λ e. IfFault e (λ offence span. Offends (scope_of scope.old) need (tree_of term.now) offence span)) }
    ensures scope { scope_of scope.new ≡ scope_of scope.old }
{
    judge_term(term, arena, need, scope)
}

/// A term that stands in a box.
#[cycle(judging)]
fn judge_boxed<'a>(
    term: &Boxed<'a, Term<'a>>,
    arena: &'a Bump,
    need: Need,
    scope: &mut Scope<'a, '_>,
) -> Result<Judged<'a>, Refusal<'a>>
    ensures judged { Judges (scope_of scope.old) need (tree_of term.now) result }
    ensures scope { scope_of scope.new ≡ scope_of scope.old }
{
    judge_term(term.get(), arena, need, scope)
}

/// A term. A fault that passes out of it quotes it, if it quotes no term in it.
#[cycle(judging)]
#[inline(always)]
fn judge_term<'a>(
    term: &Term<'a>,
    arena: &'a Bump,
    need: Need,
    scope: &mut Scope<'a, '_>,
) -> Result<Judged<'a>, Refusal<'a>>
    ensures judged { Judges (scope_of scope.old) need (tree_of term.now) result }
    ensures scope { scope_of scope.new ≡ scope_of scope.old }
{
    match judge_form(term, arena, need, scope) {
        Ok(judged) => Ok(judged),
        Err(refusal) => Err(refusal.quoting(arena, term)),
    }
}

#[cycle(judging)]
#[tactic(auto, using(zf_tree::proofs::TermSeen::seen))]
fn judge_form<'a>(
    term: &Term<'a>,
    arena: &'a Bump,
    need: Need,
    scope: &mut Scope<'a, '_>,
) -> Result<Judged<'a>, Refusal<'a>>
    ensures judged { Judges (scope_of scope.old) need (tree_of term.now) result }
    ensures scope { scope_of scope.new ≡ scope_of scope.old }
{
    match term {
        Term::Name(span, name) => named(arena, need, &name.at(*span), scope),
        Term::Number(span, value) => {
            let span = *span;
            number(arena, Place { need, span }, *value)
        }
        Term::Constant(span, constant) => {
            let span = *span;
            constant_term(arena, Place { need, span }, *constant)
        }
        Term::EmptySet(span, of) => {
            let span = *span;
            empty_set(of.get(), arena, Place { need, span }, scope)
        }
        Term::Bracket(span, inner) => {
            let span = *span;
            bracket(inner.get(), arena, Place { need, span }, scope)
        }
        Term::Listed(span, form, terms) => {
            let span = *span;
            listed(terms.as_slice(), arena, Place { need, span }, *form, scope)
        }
        Term::Comprehension(_, _, _, _) => comprehension(term, arena, need, scope),
        Term::Unary(span, op, operand) => {
            let span = *span;
            unary(operand.get(), arena, Place { need, span }, *op, scope)
        }
        Term::Binary(_, _, _, _) => binary(term, arena, need, scope),
        Term::Chain(_, _, _) => chain(term, arena, need, scope),
        Term::Quantified(_, _, _, _, _) => quantified(term, arena, need, scope),
    }
}

#[tactic(auto, using(crate::proofs::Judging::from_memory))]
#[inline(never)]
fn named<'a>(
    arena: &'a Bump,
    need: Need,
    name: &Name<'a>,
    scope: &Scope<'a, '_>,
) -> Result<Judged<'a>, Refusal<'a>>
    ensures { Judges (scope_of scope.now) need (named name.now) result }
{
    let span = name.span;
    let Some((reference, sort)) = scope.meaning(arena, name)? else {
        return Err(not_declared(arena, name, scope));
    };
    placed(
        arena,
        Place { need, span },
        sort,
        Resolved::Name(span, reference),
    )
}

#[inline(never)]
fn not_declared<'a>(arena: &'a Bump, name: &Name<'a>, scope: &Scope<'a, '_>) -> Refusal<'a>
    ensures { IsRefusal result (not_declared (spelling name.now)) name.now.span }
{
    let spelled = name.spelled();
    let like = name_like(scope, spelled.as_slice());
    refused_name(arena, Offence::NotDeclared(name.spelled()), name.span, like)
}

#[inline(never)]
fn number<'a>(arena: &'a Bump, place: Place, value: u64) -> Result<Judged<'a>, Refusal<'a>>
    ensures { (s : spec.Scope) → Judges s place.need (numeral place.span value) result }
{
    placed(
        arena,
        place,
        Sort::Typed(ZType::Int),
        Resolved::Number(place.span, value),
    )
}

#[tactic(auto, using(crate::proofs::Judging::from_memory))]
#[inline(never)]
fn constant_term<'a>(
    arena: &'a Bump,
    place: Place,
    constant: Constant,
) -> Result<Judged<'a>, Refusal<'a>>
    ensures { (s : spec.Scope) → Judges s place.need (tree.constant place.span constant) result }
{
    let sort = constant_sort(arena, constant)?;
    placed(arena, place, sort, Resolved::Constant(place.span, constant))
}

#[cycle(judging)]
#[tactic(auto, using(crate::proofs::Judging::from_memory))]
#[inline(never)]
fn empty_set<'a>(
    of: &Term<'a>,
    arena: &'a Bump,
    place: Place,
    scope: &mut Scope<'a, '_>,
) -> Result<Judged<'a>, Refusal<'a>>
    ensures judged { Judges (scope_of scope.old) place.need (tree.empty_set place.span (tree_of of.now)) result }
    ensures scope { scope_of scope.new ≡ scope_of scope.old }
{
    let Judged { term, sort } = judge_term(of, arena, Need::Set, scope)?;
    let term = Resolved::EmptySet(place.span, Boxed::new(arena, term)?);
    placed(arena, place, sort, term)
}

#[cycle(judging)]
#[tactic(auto, using(crate::proofs::Judging::from_memory))]
#[inline(never)]
fn bracket<'a>(
    inner: &Term<'a>,
    arena: &'a Bump,
    place: Place,
    scope: &mut Scope<'a, '_>,
) -> Result<Judged<'a>, Refusal<'a>>
    ensures judged { Judges (scope_of scope.old) place.need (tree.bracket place.span (tree_of inner.now)) result }
    ensures scope { scope_of scope.new ≡ scope_of scope.old }
{
    let Judged { term, sort } = judge_term(inner, arena, place.need, scope)?;
    let term = Resolved::Bracket(place.span, Boxed::new(arena, term)?);
    Ok(Judged { term, sort })
}

/// The term, where its place takes one of this sort.
#[inline(always)]
fn placed<'a>(
    arena: &'a Bump,
    place: Place,
    sort: Sort<'a>,
    term: Resolved<'a>,
) -> Result<Judged<'a>, Refusal<'a>>
    ensures { (s : spec.Scope) (e : Tree) → IsOf s e (sort_of sort.entry) → resolved_of term.entry ≡ resolved s e → place.span ≡ tree.span_of e → Judges s place.need e result }
{
    if !sort.meets(place.need) {
        return Err(misplaced(arena, place.need, &sort, place.span));
    }
    Ok(Judged { term, sort })
}

/// The same of a term that is made of others, whose type has to be within the limit.
#[inline(always)]
fn made<'a>(
    arena: &'a Bump,
    place: Place,
    sort: Sort<'a>,
    term: Resolved<'a>,
) -> Result<Judged<'a>, Refusal<'a>>
    ensures { (s : spec.Scope) (e : Tree) → (IsSmallSort (sort_of sort.entry) → IsOf s e (sort_of sort.entry)) → ((IsSmallSort (sort_of sort.entry) → ⊥) → Offends s place.need e (too_large Limit.TypeNodes) place.span) → resolved_of term.entry ≡ resolved s e → place.span ≡ tree.span_of e → Judges s place.need e result }
{
    if !sort.is_small() {
        return Err(refused(arena, Offence::TooLarge(Limit::TypeNodes), place.span));
    }
    placed(arena, place, sort, term)
}
