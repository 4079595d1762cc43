//! Predicates as trees over their parts that are no connectives.
ghost use Rattle.std.specs.Prelude.{IfOk, OnOk, map};
ghost use Rattle.zf_instances.specs.Prelude.{resolved_of, trees_of};
ghost use Rattle.zf_instances.specs.{ArePlanted, Plants, PlantsNext};

use bumpalo::Bump;
use std::alloc::{AllocError, Global};
use zf_plan::Forest;
use zf_resolved::copy;
use zf_term::Resolved;
use zf_tree::{Connective, Operator, Unary};

/// The parts of predicates that are no connectives, and the trees over them that are the predicates.
#[derive(Drop)]
pub(crate) struct Planting<'a> {
    pub(crate) leaves: Vec<Resolved<'a>>,
    pub(crate) forest: Forest,
    /// The leaves that have to hold, by their places.
    pub(crate) required: Vec<usize>,
}

/// Plants predicates, one tree for each.
pub(crate) fn plant_all<'a>(
    alloc: Global,
    arena: &'a Bump,
    conjuncts: &[Resolved<'a>],
) -> Result<Planting<'a>, AllocError>
    ensures { IfOk result (λ planting. ArePlanted (map resolved_of conjuncts.now) planting.leaves.items (trees_of planting.forest)) }
{
    let mut leaves = Vec::new(alloc);
    let mut forest = Forest::new(alloc);
    let mut required = Vec::new(alloc);
    for conjunct in conjuncts {
        plant_next(conjunct, arena, &mut leaves, &mut forest, &mut required)?;
    }
    Ok(Planting {
        leaves,
        forest,
        required,
    })
}

/// Plants a predicate as the next tree.
fn plant_next<'a>(
    term: &Resolved<'a>,
    arena: &'a Bump,
    leaves: &mut Vec<Resolved<'a>>,
    forest: &mut Forest,
    required: &mut Vec<usize>,
) -> Result<(), AllocError>
    ensures { OnOk result (PlantsNext leaves.old.items forest.old (resolved_of term.now) leaves.new.items forest.new) }
{
    gather_required(term, true, leaves.len(), required)?;
    let place = plant(term, arena, leaves, forest)?;
    forest.take(place)
}

/// Plants a predicate: its parts that are no connectives become leaves. Its tree is answered by its place.
#[cycle(planting)]
#[tactic(auto, using(zf_term::proofs::ResolvedSeen::seen))]
fn plant<'a>(
    term: &Resolved<'a>,
    arena: &'a Bump,
    leaves: &mut Vec<Resolved<'a>>,
    forest: &mut Forest,
) -> Result<usize, AllocError>
    ensures { IfOk result (λ place. Plants leaves.old.items forest.old (resolved_of term.now) place leaves.new.items forest.new) }
{
    match term {
        Resolved::Bracket(_, inner) => plant(inner.get(), arena, leaves, forest),
        Resolved::Unary(_, op, of) => match op {
            Unary::Not => {
                let of = plant(of.get(), arena, leaves, forest)?;
                forest.not(of)
            }
            _ => plant_leaf(term, arena, leaves, forest),
        },
        Resolved::Binary(_, op, left, right) => match op {
            Operator::Connective(connective) => match connective {
                Connective::And => {
                    let left = plant(left.get(), arena, leaves, forest)?;
                    let right = plant(right.get(), arena, leaves, forest)?;
                    forest.and(left, right)
                }
                Connective::Or => {
                    let left = plant(left.get(), arena, leaves, forest)?;
                    let right = plant(right.get(), arena, leaves, forest)?;
                    forest.or(left, right)
                }
                Connective::Implies => {
                    let left = plant(left.get(), arena, leaves, forest)?;
                    let left = forest.not(left)?;
                    let right = plant(right.get(), arena, leaves, forest)?;
                    forest.or(left, right)
                }
                Connective::Iff => plant_leaf(term, arena, leaves, forest),
            },
            _ => plant_leaf(term, arena, leaves, forest),
        },
        _ => plant_leaf(term, arena, leaves, forest),
    }
}

/// Plants a predicate as one leaf.
fn plant_leaf<'a>(
    term: &Resolved<'a>,
    arena: &'a Bump,
    leaves: &mut Vec<Resolved<'a>>,
    forest: &mut Forest,
) -> Result<usize, AllocError>
    ensures { IfOk result (λ place. Plants leaves.old.items forest.old (resolved_of term.now) place leaves.new.items forest.new) }
{
    let leaf = leaves.len();
    leaves.push(copy(term, arena)?)?;
    forest.leaf(leaf)
}

/// Gathers the leaves of a predicate that have to hold, if it has to, where its leaves are planted from this place on. What is answered is the place after them.
#[cycle(required)]
fn gather_required(
    term: &Resolved<'_>,
    is_required: bool,
    next: usize,
    required: &mut Vec<usize>,
) -> Result<usize, AllocError> {
    match term {
        Resolved::Bracket(_, inner) => gather_required(inner.get(), is_required, next, required),
        Resolved::Unary(_, Unary::Not, of) => gather_required(of.get(), false, next, required),
        Resolved::Binary(_, Operator::Connective(op), left, right)
            if !matches!(op, Connective::Iff) => {
            let is_required = is_required && matches!(op, Connective::And);
            let next = gather_required(left.get(), is_required, next, required)?;
            gather_required(right.get(), is_required, next, required)
        }
        _ => {
            if is_required {
                required.push(next)?;
            }
            Ok(next.saturating_add(1))
        }
    }
}
