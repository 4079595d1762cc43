//! Which parts of a predicate are worth a name.
ghost use Rattle.std.specs.Prelude.{◌≡◌, ◌&&◌, ℕ, Option, is_some};
ghost use Rattle.zf_lift.specs.Prelude.{constant_set, binary, resolved_of, ResolvedTree, unary, environment_of, Span};
ghost use Rattle.zf_lift.specs.Lifts as spec;

use zf_meaning::{Env, value_of};
use zf_reference::Reference;
use zf_term::{Range, Resolved};
use zf_tree::{Constant, Infix, Listed, Operator, Prefix, Relation, Sign, Unary};
use zf_value::{Outcome, Value};

/// Whether the term is of a form that builds a value in the environment.
#[cycle(liftable)]
#[tactic(auto, using(zf_term::proofs::ResolvedSeen::seen))]
pub fn is_liftable(term: &Resolved<'_>, env: &Env<'_, '_>) -> bool
    ensures { result ≡ spec.is_liftable (environment_of env.now).numbers (resolved_of term.now) }
{
    match term {
        Resolved::Name(_, _) => false,
        Resolved::Number(_, _) => false,
        Resolved::Constant(_, symbol) => is_ended_set(*symbol, env),
        Resolved::EmptySet(_, _) => true,
        Resolved::Bracket(_, inner) => is_liftable(inner.get(), env),
        Resolved::Listed(_, _, _) => true,
        Resolved::Comprehension(_, _, _, _) => true,
        Resolved::Unary(_, operator, _) => builds(*operator),
        Resolved::Binary(_, operator, _, _) => combines(*operator),
        Resolved::Chain(_, _, _) => false,
        Resolved::Quantified(_, _, _, _, _) => false,
    }
}

/// Whether what stands after a relation is asked only for whether it has a member, and then need not be built: numbers, or a family of sets, after a membership.
pub fn is_asked(relation: Relation, term: &Resolved<'_>) -> bool {
    match relation {
        Relation::Member | Relation::NotMember => is_family(term),
        _ => false,
    }
}

/// Whether the term is a set that is described by what it is made of.
#[cycle(family)]
fn is_family(term: &Resolved<'_>) -> bool {
    match term {
        Resolved::Bracket(_, inner) => is_family(inner.get()),
        Resolved::Constant(_, _) => true,
        Resolved::Listed(_, Listed::Product, _) => true,
        Resolved::Unary(_, Unary::Sign(Sign::Symbol(Prefix::Power | Prefix::Finset)), _) => true,
        Resolved::Binary(_, Operator::Generic(_), _, _) => true,
        Resolved::Binary(_, Operator::Function(Infix::UpTo), _, _) => true,
        _ => false,
    }
}

/// Whether the symbol is a set of numbers, which end.
fn is_ended_set(symbol: Constant, env: &Env<'_, '_>) -> bool
    ensures { result ≡ (is_some (environment_of env.now).numbers && is_some (constant_set symbol)) }
{
    match env.numbers() {
        Some(_) => is_number_set(symbol),
        None => false,
    }
}

fn is_number_set(symbol: Constant) -> bool
    ensures { result ≡ is_some (constant_set symbol) }
{
    !matches!(symbol, Constant::True | Constant::False)
}

/// Whether what stands before or after a term makes a value of it.
fn builds(operator: Unary) -> bool
    ensures { (n : Option ℕ) (span : Span) (t : ResolvedTree) → result ≡ spec.is_liftable n (unary span operator t) }
{
    !matches!(operator, Unary::Not)
}

/// Whether what stands between two terms makes a value of them.
fn combines(operator: Operator) -> bool
    ensures { (n : Option ℕ) (span : Span) (t u : ResolvedTree) → result ≡ spec.is_liftable n (binary span operator t u) }
{
    !matches!(operator, Operator::Connective(_))
}

/// The most rows of a set comprehension that is worked out before a quantifier or comprehension around it asks for it.
const MOST_ROWS: usize = 4096;

/// Whether a set comprehension goes over more rows than are worked out before they are asked for.
#[cycle(long)]
pub(crate) fn is_long<'a>(term: &Resolved<'a>, env: &Env<'_, 'a>) -> bool {
    match term {
        Resolved::Bracket(_, inner) => is_long(inner.get(), env),
        Resolved::Comprehension(_, variables, _, _) => {
            rows_of(variables.as_slice(), env, MOST_ROWS) > MOST_ROWS
        }
        _ => false,
    }
}

/// How many rows the ranges have, as far as it is known; more than so many where it is not.
pub fn rows_of<'a>(variables: &[Range<'a>], env: &Env<'_, 'a>, most: usize) -> usize {
    let mut rows = 1usize;
    for range in variables {
        let members = members_of(&range.set, env).unwrap_or(most.saturating_add(1));
        for _ in 0..range.variables.min(64) {
            rows = rows.saturating_mul(members);
        }
    }
    rows
}

/// How many members the set has, if it was worked out.
fn members_of<'a>(set: &Resolved<'a>, env: &Env<'_, 'a>) -> Option<usize> {
    let Resolved::Name(_, Reference::Global(_)) = set else {
        return None;
    };
    let none: &[Value] = &[];
    match value_of(set, &none, env) {
        Ok(Outcome::Is(value)) => Some(value.members().len()),
        Ok(_) => Some(0),
        Err(_) => None,
    }
}
