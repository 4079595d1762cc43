//! Which values of a component leaves leave.
ghost use Rattle.std.specs.Prelude.{◌<◌, ◌≤◌, ℕ, length, IsTrue, IfOk, IfSome};
ghost use Rattle.zf_plan.specs.Prelude.{AreAscending, AreWithin};
ghost use Rattle.zf_plan.specs.{IsKeyOf, StaysIn};
ghost use Rattle.zf_plan.specs.Choices.{Leaves};

use std::alloc::AllocError;
use zf_walk::{Judge, Range};

/// How it is known which values a leaf leaves.
#[derive(Clone, Copy)]
pub enum Means {
    /// By itself, and these are likely to be few.
    Closely,
    /// By itself.
    Loosely,
    /// By itself or by keys.
    ByKeys,
}

/// A judge that can tell, before a value is bound, on which ones a leaf is False.
pub trait Guide<V: Ord>: Judge<V> {
    /// Whether it is worth to ask by these means which values a leaf leaves to a component.
    fn narrows(&self, leaf: usize, component: usize, means: Means) -> bool
        requires { leaf < (Self.conjuncts self.now).number };

    /// Gathers the places of the next range at which a leaf may be other than False, where the values at these places of the ranges before are bound. Answers false where it doesn't say.
    fn narrow(
        &self,
        leaf: usize,
        ranges: &[Range<V>],
        places: &[usize],
        gathered: &mut Vec<usize>,
    ) -> Result<bool, AllocError>
        requires leaf { leaf < (Self.conjuncts self.now).number }
        requires due { (Self.conjuncts self.now).due leaf ≤ length ranges.now }
        requires ascending { AreAscending V.cmp ranges.now }
        requires within { AreWithin ranges.now places.now }
        requires deeper { length places.now < length ranges.now }
        ensures stay { StaysIn gathered.old.items gathered.new.items }
        ensures leaves { IfOk result (λ found. IsTrue found → Leaves (Self.conjuncts self.now) leaf ranges.now places.now gathered.new.items) };

    /// Which number is the key of a value of the last component that a leaf needs.
    ghost is_key: { Self → ℕ → V → ℕ → Type 0 };

    /// The key of the value at a place of the last range that a leaf needs. Without a place it is the one that the leaf needs where the values at these places of the ranges before are bound: with a value of any other key it is False.
    fn key(
        &self,
        leaf: usize,
        ranges: &[Range<V>],
        places: &[usize],
        of: Option<usize>,
    ) -> Result<Option<u64>, AllocError>
        requires leaf { leaf < (Self.conjuncts self.now).number }
        requires within { AreWithin ranges.now places.now }
        ensures { IfOk result (λ found. IfSome found (IsKeyOf (Self.conjuncts self.now) (is_key self.now leaf) leaf ranges.now places.now of)) };
}
