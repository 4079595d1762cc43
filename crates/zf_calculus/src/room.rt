//! How much of the limits is left after parts of a schema.
ghost use Rattle.std.specs.Prelude.{◌≡◌, ◌+◌, ◌<◌, ◌↔◌, IsTrue, MatchOption, map};
ghost use Rattle.zf_calculus.specs.Prelude.{AllByRecursion, sum_by, comp_of, conjunct_of, IsLow, nodes, set_of};
ghost use Rattle.zf_calculus.specs.{counted, measured};

use crate::limits::HEIGHT_MAX;
use zf_data::arena::Chunked;
use zf_shape::{conjunct, room_after_nodes, room_after_sets};
use zf_term::{Component, Conjunct, Domain};

/// What is counted of declared sets.
#[derive(Clone, Copy)]
pub enum Measure {
    Sets,
    Nodes,
}

/// How much of the room for what is counted is left after a declared set, where there is enough.
#[inline]
fn after_one(measure: Measure, domain: &Domain<'_>, room: usize) -> Option<usize>
    ensures { MatchOption result (room < measured measure (set_of domain.now)) (λ left. left + measured measure (set_of domain.now) ≡ room) }
{
    match measure {
        Measure::Sets => room_after_sets(domain, room),
        Measure::Nodes => room_after_nodes(domain, room),
    }
}

/// The same of several declared sets.
pub fn after<'a>(measure: Measure, domains: &Chunked<'a, Domain<'a>>, room: usize) -> Option<usize>
    ensures { MatchOption result (room < sum_by (measured measure) (map set_of domains.now)) (λ left. left + sum_by (measured measure) (map set_of domains.now) ≡ room) }
{
    let mut left = room;
    for domain in domains.iter() {
        left = after_one(measure, domain, left)?;
    }
    Some(left)
}

/// The same of all declared sets of components.
pub fn after_all(measure: Measure, components: &[Component<'_>], room: usize) -> Option<usize>
    ensures { MatchOption result (room < counted (measured measure) (map comp_of components.now)) (λ left. left + counted (measured measure) (map comp_of components.now) ≡ room) }
{
    let mut left = room;
    for component in components {
        left = after(measure, component.domains.get(), left)?;
    }
    Some(left)
}

/// The same of the nodes of conjuncts.
pub fn after_conjuncts<'a>(conjuncts: &Chunked<'a, Conjunct<'a>>, room: usize) -> Option<usize>
    ensures { MatchOption result (room < sum_by nodes (map conjunct_of conjuncts.now)) (λ left. left + sum_by nodes (map conjunct_of conjuncts.now) ≡ room) }
{
    let mut left = room;
    for conjunct in conjuncts.iter() {
        left = conjunct::room_after(conjunct, left)?;
    }
    Some(left)
}

/// Whether a conjunct of so many nodes is not too high. None is higher than it has nodes, so few are looked at.
pub fn is_low(conjunct: &Conjunct<'_>, count: usize) -> bool
    requires { count ≡ nodes (conjunct_of conjunct.now) }
    ensures { IsTrue result ↔ IsLow (conjunct_of conjunct.now) }
{
    if count <= HEIGHT_MAX {
        return true;
    }
    conjunct::is_within(conjunct, HEIGHT_MAX)
}

/// Whether none of the conjuncts is too high. It descends no further than they may be high.
pub fn none_too_high<'a>(conjuncts: &Chunked<'a, Conjunct<'a>>) -> bool
    ensures { IsTrue result ↔ AllByRecursion IsLow (map conjunct_of conjuncts.now) }
{
    for conjunct in conjuncts.iter() {
        if !conjunct::is_within(conjunct, HEIGHT_MAX) {
            return false;
        }
    }
    true
}
