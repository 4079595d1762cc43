//! The conjuncts of a predicate of the text.
ghost use Rattle.std.specs.Prelude.{◌≡◌, ◌++◌, [], ◌∷◌, IfErr, OnOk, map};
ghost use Rattle.zf_typing.specs.Prelude.{tree_of, resolved_of, IfFault, predicate};
ghost use Rattle.zf_term.specs.Shapes as spec;
ghost use Rattle.zf_tree.specs.declared.operator.Need.TheVariants as needs;
ghost use Rattle.zf_typing.specs.{is_conjunction, IsOf, Offends, resolved, scope_of};

use crate::judge::judge;
use crate::scope::Scope;
use bumpalo::Bump;
use zf_data::arena::Items;
use zf_sorts::Refusal;
use zf_term::Resolved;
use zf_tree::{Connective, Need, Operator, Term};

/// Whether it is a conjunction, within brackets or without.
#[tactic(auto, using(zf_tree::proofs::TermSeen::seen))]
fn is_conjunction(term: &Term<'_>) -> bool
    ensures { result ≡ is_conjunction (tree_of term.now) }
{
    match term {
        Term::Bracket(_, inner) => is_conjunction(inner.get()),
        Term::Binary(_, op, _, _) => is_and(*op),
        Term::Name(_, _)
        | Term::Number(_, _)
        | Term::Constant(_, _)
        | Term::EmptySet(_, _)
        | Term::Listed(_, _, _)
        | Term::Comprehension(_, _, _, _)
        | Term::Unary(_, _, _)
        | Term::Chain(_, _, _)
        | Term::Quantified(_, _, _, _, _) => false,
    }
}

fn is_and(op: Operator) -> bool
    ensures { result ≡ spec.is_and op }
{
    matches!(op, Operator::Connective(Connective::And))
}

/// Adds the conjuncts of the predicate, where it is one.
#[tactic(auto, using(zf_tree::proofs::TermSeen::seen))]
pub fn push_conjuncts<'a>(
    term: &Term<'a>,
    arena: &'a Bump,
    scope: &mut Scope<'a, '_>,
    conjuncts: &mut Items<'a, Resolved<'a>>,
) -> Result<(), Refusal<'a>>
    ensures is { OnOk result (IsOf (scope_of scope.old) (tree_of term.now) predicate) }
    ensures ok { OnOk result (map resolved_of conjuncts.new ≡ map resolved_of conjuncts.old ++ spec.conjuncts (resolved (scope_of scope.old) (tree_of term.now))) }
    ensures wrong { IfErr result (λ e. IfFault e (λ offence span. Offends (scope_of scope.old) needs.Predicate (tree_of term.now) offence span)) }
    ensures scope { scope_of scope.new ≡ scope_of scope.old }
{
    match term {
        Term::Bracket(_, inner) => {
            if is_conjunction(inner.get()) {
                push_conjuncts(inner.get(), arena, scope, conjuncts)
            } else {
                push_whole(term, arena, scope, conjuncts)
            }
        }
        Term::Binary(_, op, left, right) => {
            if is_and(*op) {
                push_conjuncts(left.get(), arena, scope, conjuncts)?;
                push_conjuncts(right.get(), arena, scope, conjuncts)
            } else {
                push_whole(term, arena, scope, conjuncts)
            }
        }
        Term::Name(_, _)
        | Term::Number(_, _)
        | Term::Constant(_, _)
        | Term::EmptySet(_, _)
        | Term::Listed(_, _, _)
        | Term::Comprehension(_, _, _, _)
        | Term::Unary(_, _, _)
        | Term::Chain(_, _, _)
        | Term::Quantified(_, _, _, _, _) => push_whole(term, arena, scope, conjuncts),
    }
}

/// Adds the predicate itself, where it is one.
fn push_whole<'a>(
    term: &Term<'a>,
    arena: &'a Bump,
    scope: &mut Scope<'a, '_>,
    conjuncts: &mut Items<'a, Resolved<'a>>,
) -> Result<(), Refusal<'a>>
    ensures is { OnOk result (IsOf (scope_of scope.old) (tree_of term.now) predicate) }
    ensures ok { OnOk result (map resolved_of conjuncts.new ≡ map resolved_of conjuncts.old ++ resolved (scope_of scope.old) (tree_of term.now) ∷ []) }
    ensures wrong { IfErr result (λ e. IfFault e (λ offence span. Offends (scope_of scope.old) needs.Predicate (tree_of term.now) offence span)) }
    ensures scope { scope_of scope.new ≡ scope_of scope.old }
{
    let judged = judge(term, arena, Need::Predicate, scope)?;
    conjuncts.push(judged.term)?;
    Ok(())
}
