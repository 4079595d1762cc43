//! Minimal sets of which nothing is possible.
ghost use Rattle.std.specs.Prelude.{◌≡◌, IfOk, replicate, true};
ghost use Rattle.zf_cores.specs.{IsMinimal};

use crate::trial::Trial;
use std::alloc::{AllocError, Global};

/// Of members with all of which nothing is possible, a minimal set of them.
pub fn minimal<T: Trial>(alloc: Global, trial: &T) -> Result<Vec<bool>, AllocError>
    requires ready { T.ready trial.now }
    requires none { T.Possible trial.now (replicate (T.number trial.now) true) → ⊥ }
    ensures { IfOk result (λ chosen. IsMinimal (T.Possible trial.now) (T.number trial.now) chosen.items) }
{
    let count = trial.count();
    let mut chosen = all_chosen(alloc, count)?;
    for place in 0..count {
        chosen[place] = false;
        if trial.is_possible(&chosen)? {
            chosen[place] = true;
        }
    }
    Ok(chosen)
}

/// So many members, each of which is chosen.
fn all_chosen(alloc: Global, count: usize) -> Result<Vec<bool>, AllocError>
    ensures { IfOk result (λ chosen. chosen.items ≡ replicate count true) }
{
    let mut chosen = Vec::with_capacity(alloc, count)?;
    for _ in 0..count {
        chosen.push(true)?;
    }
    Ok(chosen)
}
