//! What is asked of rows.
ghost use Rattle.std.specs.Prelude.{◌≡◌, ◌<◌, ◌≤◌, ℕ, Bool, length, slice_index_or, IfOk};
ghost use Rattle.zf_walk.specs.declared.judge.Truth.{Truth};
ghost use Rattle.zf_walk.specs.Conjuncts.{Conjuncts};
ghost use Rattle.zf_walk.specs.{FollowUsed, HaveOneTruth, KeepTruths};

use crate::row::Row;
use std::alloc::AllocError;

/// What a conjunct comes to on a row.
#[derive(Clone, Copy, Debug, PartialEq, Eq)]
pub enum Truth {
    True,
    False,
    /// It can't be decided.
    Out,
}

/// The conjuncts that rows are to meet, by their places.
pub trait Judge<V> {
    ghost conjuncts: { Self → Conjuncts V };

    ghost is_used: { Self → ℕ → ℕ → Bool };

    /// How many first components each conjunct needs.
    fn dues(&self) -> &[usize]
        ensures all { length result.now ≡ (conjuncts self.now).number }
        ensures each { (c : ℕ) → c < length result.now → slice_index_or result.now c 0 ≡ (conjuncts self.now).due c };

    /// How many conjuncts there are.
    final fn count(&self) -> usize
        ensures { result ≡ (conjuncts self.now).number }
    {
        self.dues().len()
    }

    /// How many first components a conjunct needs.
    final fn due(&self, conjunct: usize) -> usize
        requires { conjunct < (conjuncts self.now).number }
        ensures { result ≡ (conjuncts self.now).due conjunct }
    {
        self.dues()[conjunct]
    }

    /// Whether a conjunct uses a component.
    fn uses(&self, conjunct: usize, component: usize) -> bool
        requires { conjunct < (conjuncts self.now).number }
        ensures { result ≡ is_used self.now conjunct component };

    /// The truth of a conjunct on a row that has what it needs.
    fn judge<R: Row<V>>(&self, conjunct: usize, row: &R) -> Result<Truth, AllocError>
        requires conjunct { conjunct < (conjuncts self.now).number }
        requires due { (conjuncts self.now).due conjunct ≤ length (R.values row.now) }
        ensures { IfOk result ((conjuncts self.now).says conjunct (R.values row.now)) };

    ghost one_truth: { (j : Self) → HaveOneTruth (conjuncts j) };

    ghost kept: { (j : Self) → KeepTruths (conjuncts j) };

    ghost follow_used: { (j : Self) → FollowUsed (conjuncts j) (is_used j) };
}
