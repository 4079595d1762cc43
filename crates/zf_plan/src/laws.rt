//! Laws of the definitions, at any leaves.
ghost use Rattle.zf_plan.specs.{TreesHaveOneTruth, TreesKeepTruths};

use zf_walk::Judge;

/// Trees over leaves have one truth each, and keep it, as the leaves do.
pub fn trees<V, J: Judge<V>>()
    ensures one_truth { (j : J) → TreesHaveOneTruth (J.conjuncts j) }
    ensures kept { (j : J) → TreesKeepTruths (J.conjuncts j) }
{}
