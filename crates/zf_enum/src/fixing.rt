//! Equations of a component with an expression.
ghost use Rattle.std.specs.Prelude.{◌≡◌, ℕ, IfSome, IsTrue};
ghost use Rattle.zf_enum.specs.Prelude.{Component, Equal, chain, link, no_links, resolved_of, Span};
ghost use Rattle.zf_enum.specs.{Fixes, IsBeside, IsName};

use crate::due::uses;
use zf_reference::Reference;
use zf_term::Resolved;
use zf_tree::Relation;

/// A relation between two terms.
#[derive(Clone, Copy)]
pub struct Relating<'t, 'a> {
    pub left: &'t Resolved<'a>,
    pub relation: Relation,
    pub right: &'t Resolved<'a>,
}

/// The relation that a predicate is, if it is one between two terms.
#[inline]
#[tactic(auto, using(zf_term::proofs::ResolvedSeen::seen))]
pub fn relation_of<'t, 'a>(term: &'t Resolved<'a>) -> Option<Relating<'t, 'a>>
    ensures { IfSome result (λ it. (span : Span) × (resolved_of term.now ≡ chain span (resolved_of it.left.now) (link it.relation (resolved_of it.right.now) no_links))) }
{
    let Resolved::Chain(_, first, links) = term else {
        return None;
    };
    let [link] = links.as_slice() else {
        return None;
    };
    Some(Relating {
        left: first.get(),
        relation: link.relation,
        right: &link.right,
    })
}

/// The expression that a predicate equates a component with, where it does. The expression doesn't name the component.
pub(crate) fn fixing<'t, 'a>(term: &'t Resolved<'a>, component: usize) -> Option<&'t Resolved<'a>>
    ensures { IfSome result (λ side. Fixes (resolved_of term.now) component (resolved_of side.now)) }
{
    let it = relation_of(term)?;
    if !is_equality(it.relation) {
        return None;
    }
    beside(it.left, it.right, component)
}

pub(crate) fn is_equality(relation: Relation) -> bool
    ensures { IsTrue result → relation ≡ Equal }
{
    matches!(relation, Relation::Equal)
}

/// The one of two terms beside which the component stands.
fn beside<'t, 'a>(
    left: &'t Resolved<'a>,
    right: &'t Resolved<'a>,
    component: usize,
) -> Option<&'t Resolved<'a>>
    ensures { IfSome result (λ side. IsBeside (resolved_of left.now) (resolved_of right.now) component (resolved_of side.now)) }
{
    if is_component(left, component) && !uses(right, component) {
        return Some(right);
    }
    if is_component(right, component) && !uses(left, component) {
        return Some(left);
    }
    None
}

/// Whether the term is the name of a component.
#[tactic(auto, using(zf_term::proofs::ResolvedSeen::seen))]
pub(crate) fn is_component(term: &Resolved<'_>, component: usize) -> bool
    ensures { IsTrue result → IsName component (resolved_of term.now) }
{
    let Resolved::Name(_, reference) = term else {
        return false;
    };
    is_named(*reference, component)
}

/// Whether a name is that of a component.
pub(crate) fn is_named(reference: Reference, component: usize) -> bool
    ensures { IsTrue result → reference ≡ Component component }
{
    match reference {
        Reference::Component(place) => place == component,
        _ => false,
    }
}
