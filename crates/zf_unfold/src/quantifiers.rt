//! Universal quantifiers among the parts of a predicate that are no connectives.
ghost use Rattle.std.specs.Prelude.{◌≡◌, ◌<◌, IfSome, IsTrue};
ghost use Rattle.zf_tree.specs.declared.symbol.Quantifier.TheVariants.{ForAll};
ghost use Rattle.zf_term.specs.{resolved_of};
ghost use Rattle.zf_unfold.specs.RenamingViews as views;

use crate::instance::Universal;
use zf_term::Resolved;
use zf_tree::{Operator, Quantifier, Unary};

/// The term as a universal quantifier over variables, if it is one.
#[tactic(auto, using(zf_term::proofs::ResolvedSeen::seen))]
pub(crate) fn universal<'t, 'a>(term: &'t Resolved<'a>) -> Option<Universal<'t, 'a>>
    ensures is { IfSome result (λ u. resolved_of term.now ≡ views.universal_of u) }
    ensures variables { IfSome result (λ u. 0 < u.first.now.variables) }
{
    let Resolved::Quantified(quantifier, span, variables, constraint, body) = term else {
        return None;
    };
    if !is_universal(*quantifier) {
        return None;
    }
    let Some((first, others)) = variables.as_slice().split_first() else {
        return None;
    };
    if first.variables == 0 {
        return None;
    }
    Some(Universal {
        span: *span,
        first,
        others,
        constraint,
        body: body.get(),
    })
}

fn is_universal(quantifier: Quantifier) -> bool
    ensures { IsTrue result → quantifier ≡ ForAll }
{
    matches!(quantifier, Quantifier::ForAll)
}

/// Whether one of them has a universal quantifier outside of all others.
pub(crate) fn have_quantifiers(terms: &[Resolved<'_>]) -> bool {
    for term in terms {
        if has_quantifier(term) {
            return true;
        }
    }
    false
}

#[cycle(has_quantifier)]
fn has_quantifier(term: &Resolved<'_>) -> bool {
    match term {
        Resolved::Bracket(_, inner) => has_quantifier(inner.get()),
        Resolved::Unary(_, Unary::Not, of) => has_quantifier(of.get()),
        Resolved::Binary(_, Operator::Connective(_), left, right) => {
            has_quantifier(left.get()) || has_quantifier(right.get())
        }
        Resolved::Quantified(quantifier, _, _, _, _) => is_universal(*quantifier),
        _ => false,
    }
}
