//! What a search is about.
ghost use Rattle.std.specs.Prelude.{◌≡◌, ◌≤◌, length, true};
ghost use Rattle.zf_plan.specs.{IsBare, IsLayer, IsPosed, trees_of};

use crate::forest::Forest;
use crate::guide::Guide;
use crate::keys::Keyed;
use crate::plan::{Layer, Plan};
use zf_walk::Range;

/// Trees over the leaves of a judge, the ranges of their components, the row whose events and all before are passed over, and the plan.
#[derive(Drop)]
pub struct Problem<'p, V: Ord, J: Guide<V>> {
    pub judge: &'p J,
    pub forest: &'p Forest,
    pub ranges: &'p [Range<V>],
    pub after: Option<&'p [V]>,
    pub plan: &'p Plan,
    /// For each leaf the keys of the values of the last component that it needs, or none.
    pub keys: &'p [Keyed],
}

impl<'p, V: Ord, J: Guide<V>> Problem<'p, V, J> {
    /// What so many values concern.
    pub fn layer(&self, number: usize) -> &Layer
        requires sound { IsPosed V.cmp J.conjuncts J.is_used self.now }
        requires few { number ≤ length self.now.ranges.now }
        ensures layer { IsLayer (J.conjuncts self.now.judge.now) (J.is_used self.now.judge.now) (trees_of self.now.forest.now) number result.now }
        ensures bare { self.now.plan.now.is_plain ≡ true → IsBare result.now }
    {
        &self.plan.layers[number]
    }
}
