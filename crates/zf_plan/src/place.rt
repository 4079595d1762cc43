//! Where a search is.
ghost use Rattle.std.specs.Prelude.{◌≡◌, ◌+◌, ◌≤◌, ℕ, length, slice_index_or, IfSome};
ghost use Rattle.zf_plan.specs.Prelude.{IsSeen};
ghost use Rattle.zf_plan.specs.{found_before, seen_at};

use crate::marks::Marks;
use zf_walk::{Seen, Truth};

/// The first `depth` places are those of the values that are bound. Where it is `fresh` the rows that begin with them are still ahead, and else only those that are greater.
#[derive(Drop)]
pub struct Place {
    pub places: Vec<usize>,
    /// For each number of first values the truth of the conjuncts that need no more of them.
    pub found: Vec<Truth>,
    pub marks: Marks,
    /// For each range what is known, with each of its values, of the leaves that are conjuncts and need it as the last.
    pub seen: Vec<Seen>,
    pub depth: usize,
    pub fresh: bool,
}

impl Place {
    /// The truth of the leaves that are conjuncts and need the last bound value, where it is known.
    pub fn told(&self) -> Option<Truth>
        requires seen { self.now.depth ≤ length self.now.seen.items }
        requires places { self.now.depth ≤ length self.now.places.items }
        ensures { IfSome result (λ t. (k : ℕ) × (self.now.depth ≡ k + 1) × IsSeen (seen_at self.now k) (slice_index_or self.now.places.items k 0) t) }
    {
        if self.depth == 0 {
            return None;
        }
        let last = self.depth - 1;
        let seen = self.seen[last];
        seen.told(self.places[last])
    }

    /// What was found on the bound values but the last.
    pub fn so_far(&self) -> Truth
        requires { self.now.depth ≤ length self.now.found.items }
        ensures { result ≡ found_before self.now.found.items self.now.depth }
    {
        if self.depth == 0 {
            Truth::True
        } else {
            self.found[self.depth - 1]
        }
    }
}
