//! The property of a schema in an environment, as the judge of a walk.
ghost use Rattle.std.specs.Prelude.{◌≡◌, ◌<◌, ◌^◌, ℕ, IfOk, map, slice_get};
ghost use Rattle.zf_enum.specs.Prelude.{environment_of, resolved_of};
ghost use Rattle.zf_enum.specs.Property.{due, due_of, told};

use crate::candidates::{Tie, gather_candidates, gather_spread, gather_value, is_tried};
use crate::conjuncts::Conjuncts;
use crate::due::{due, uses};
use crate::fixing::fixing;
use crate::keys::{key_at, key_of_row, keyed};
use crate::shown::Shown;
use crate::sums::{balances, equates, gather_balanced};
use bumpalo::Bump;
use std::alloc::{AllocError, Global};
use zf_meaning::{Env, truth_of};
use zf_plan::{Guide, Means};
use zf_term::Resolved;
use zf_value::{Value, value};
use zf_walk::{Judge, Range, Row, Truth};

/// The conjuncts of a schema, in an environment.
#[derive(Drop)]
pub struct Property<'e, 'g, 'a> {
    pub conjuncts: Conjuncts<'a>,
    pub env: &'e Env<'g, 'a>,
    /// How many first components each conjunct needs.
    pub dues: Vec<usize>,
    ghost needed: { dues.items ≡ map due (map resolved_of conjuncts) },
    ghost small: { (c : ℕ) → due_of (slice_get (map resolved_of conjuncts) c) < 2 ^ 64 },
}

impl<'e, 'g, 'a> Judge<Value> for Property<'e, 'g, 'a> {
    ghost use Rattle.std.specs.Prelude.{map};
    ghost use Rattle.zf_term.specs.ResolvedViews.{resolved_of};
    ghost use Rattle.zf_meaning.specs.Envs.{environment_of};
    ghost use Rattle.zf_enum.specs.Property as spec;
    ghost use Rattle.zf_enum.specs.Uses.{are_used};
    ghost use Rattle.zf_enum.specs.PropertyLaws.{has_one_truth, keeps_truths, follows_used};

    ghost conjuncts = { λ j. spec.property (environment_of j.env.now) (map resolved_of j.conjuncts) };

    ghost is_used = { λ j. are_used (map resolved_of j.conjuncts) };

    ghost one_truth = { λ j. has_one_truth (environment_of j.env.now) (map resolved_of j.conjuncts) };

    ghost kept = { λ j. keeps_truths (environment_of j.env.now) (map resolved_of j.conjuncts) };

    ghost follow_used = { λ j. follows_used (environment_of j.env.now) (map resolved_of j.conjuncts) };

    fn dues(&self) -> &[usize] {
        &self.dues
    }

    fn uses(&self, conjunct: usize, component: usize) -> bool {
        uses(self.conjuncts.get(conjunct), component)
    }

    #[tactic(auto, using(crate::proofs::Judging::has_truth))]
    fn judge<R: Row<Value>>(&self, conjunct: usize, row: &R) -> Result<Truth, AllocError> {
        let shown = Shown { row };
        let truth = truth_of(self.conjuncts.get(conjunct), &shown, self.env)?;
        Ok(walked(truth))
    }
}

/// An equation of a component with an expression leaves the expression's values, a relation between sums the values with which it may hold, and a predicate that asks for values of variables those that it equates the component with.
impl<'e, 'g, 'a> Guide<Value> for Property<'e, 'g, 'a> {
    ghost use Rattle.std.specs.Prelude.{map};
    ghost use Rattle.zf_term.specs.ResolvedViews.{resolved_of};
    ghost use Rattle.zf_meaning.specs.Envs.{environment_of};
    ghost use Rattle.zf_enum.specs.Keys.{IsKeyOfValue};

    ghost is_key = { λ j. IsKeyOfValue (environment_of j.env.now) (map resolved_of j.conjuncts) };

    fn narrows(&self, leaf: usize, component: usize, means: Means) -> bool {
        let term = self.conjuncts.get(leaf);
        if fixing(term, component).is_some() || self.conjuncts.spread(leaf, component).is_some() {
            return true;
        }
        let balances = balances(term, component);
        match means {
            Means::Closely => {
                balances && equates(term) && self.dues[leaf].saturating_sub(1) <= component
            }
            Means::Loosely => balances,
            Means::ByKeys => balances || keyed(term, component).is_some(),
        }
    }

    fn narrow(
        &self,
        leaf: usize,
        ranges: &[Range<Value>],
        places: &[usize],
        gathered: &mut Vec<usize>,
    ) -> Result<bool, AllocError> {
        let term = self.conjuncts.get(leaf);
        let next = places.len();
        if let Some(side) = fixing(term, next) {
            if self.dues[leaf] <= next + 1 {
                return gather_value(side, Tie::Value, ranges, places, next, self.env, gathered);
            }
            if is_tried(side, ranges, next) {
                return gather_candidates(side, Tie::Value, ranges, places, self.env, gathered);
            }
        }
        if balances(term, next) {
            return gather_balanced(term, ranges, places, self.env, gathered);
        }
        match self.conjuncts.spread(leaf, next) {
            None => Ok(false),
            Some(set) => gather_spread(set, ranges, places, self.env, gathered),
        }
    }

    fn key(
        &self,
        leaf: usize,
        ranges: &[Range<Value>],
        places: &[usize],
        of: Option<usize>,
    ) -> Result<Option<u64>, AllocError> {
        let last = self.dues[leaf].saturating_sub(1);
        let Some(sides) = keyed(self.conjuncts.get(leaf), last) else {
            return Ok(None);
        };
        match of {
            None => key_of_row(sides.other, ranges, places, self.env),
            Some(place) => key_at(sides.key, ranges, last, place, self.env),
        }
    }
}

/// How many first components each of these needs.
pub(crate) fn dues(alloc: Global, conjuncts: &[Resolved<'_>]) -> Result<Vec<usize>, AllocError>
    requires { (c : ℕ) → due_of (slice_get (map resolved_of conjuncts.now) c) < 2 ^ 64 }
    ensures { IfOk result (λ ds. ds.items ≡ map due (map resolved_of conjuncts.now)) }
{
    let mut dues = Vec::with_capacity(alloc, conjuncts.len())?;
    for conjunct in conjuncts {
        dues.push(due(conjunct))?;
    }
    Ok(dues)
}

/// The predicates as conjuncts.
pub fn property_of<'e, 'g, 'a>(
    alloc: Global,
    arena: &'a Bump,
    terms: Vec<Resolved<'a>>,
    env: &'e Env<'g, 'a>,
) -> Result<Property<'e, 'g, 'a>, AllocError>
    requires small { (c : ℕ) → due_of (slice_get (map resolved_of terms.items) c) < 2 ^ 64 }
    ensures { IfOk result (λ p. (environment_of p.env.now ≡ environment_of env.now) × (p.conjuncts ≡ terms.entry.items)) }
{
    let dues = dues(alloc, &terms)?;
    let conjuncts = Conjuncts::narrowing(alloc, arena, terms)?;
    let property: Property<'e, 'g, 'a> = Property {
        conjuncts,
        env,
        dues,
    };
    Ok(property)
}

/// What a walk calls a truth.
fn walked(truth: value::Truth) -> Truth
    ensures { told result ≡ truth }
{
    match truth {
        value::Truth::True => Truth::True,
        value::Truth::False => Truth::False,
        value::Truth::Out => Truth::Out,
    }
}
