//! What is possible with some of several members.
ghost use Rattle.std.specs.Prelude.{◌≡◌, IfOk, length};

use std::alloc::AllocError;

/// What is possible with some of several members. What is possible with more of them is possible with fewer.
pub trait Trial {
    ghost use Rattle.std.specs.Prelude.{ℕ, Bool, List};
    ghost use Rattle.zf_cores.specs.Trials.{IsFewer, OneOf};

    /// How many members there are.
    ghost number: { Self → ℕ };

    /// When it may be asked.
    ghost ready: { Self → Type 0 };

    /// That something is possible with the chosen ones.
    ghost Possible: { Self → List Bool → Type 0 };

    ghost fewer: { (t : Self) (small large : List Bool) → IsFewer small large → Possible t large → Possible t small };

    fn count(&self) -> usize
        ensures { result ≡ number self.now };

    fn is_possible(&self, chosen: &[bool]) -> Result<bool, AllocError>
        requires ready { ready self.now }
        requires each { length chosen.now ≡ number self.now }
        ensures { IfOk result (OneOf (Possible self.now chosen.now) (Possible self.now chosen.now → ⊥)) };
}
