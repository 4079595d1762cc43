//! What was made of values that are still bound.
ghost use Rattle.std.specs.Prelude.{◌≡◌, ◌+◌, ◌-◌, ◌<◌, ◌≤◌, ◌^◌, length, IfOk};
ghost use Rattle.zf_plan.specs.{Accuses, AreNew, is_still, Keeps, mark_at, Renews};

use std::alloc::{AllocError, Global};

/// Of how many first values a range's choice was made, and under which stamp of theirs. And what is known of those of its values that were tried, unless it is open: no event begins with one of them, which is to be blamed on the values of some components before, a bit each.
#[derive(Clone, Copy)]
pub struct Mark {
    pub due: usize,
    pub stamp: u64,
    pub is_open: bool,
    pub blame: u64,
}

/// Stamps of values, and the marks of what was chosen.
#[derive(Drop)]
pub struct Marks {
    /// For each number of first values a stamp, which is another one each time that the last of them is bound.
    pub stamps: Vec<u64>,
    /// For each range the mark of its choice.
    pub choices: Vec<Mark>,
}

impl Marks {
    /// Marks for so many ranges, none of which has a choice.
    pub fn new(alloc: Global, ranges: usize) -> Result<Marks, AllocError>
        requires { ranges + 1 < 2 ^ 64 }
        ensures { IfOk result (AreNew ranges) }
    {
        let stamps = vec![in alloc; 1; ranges + 1]?;
        let choices = vec![in alloc; Mark {
            due: 0,
            stamp: 0,
            is_open: true,
            blame: 0
        }; ranges]?;
        Ok(Marks { stamps, choices })
    }

    /// Whether the values of which a range's choice was made are still bound, where so many are.
    pub fn is_still(&self, range: usize) -> bool
        requires range { range < length self.now.choices.items }
        requires due { (mark_at self.now range).due < length self.now.stamps.items }
        ensures { result ≡ is_still self.now.stamps.items (mark_at self.now range) }
    {
        let mark = self.choices[range];
        mark.stamp == self.stamps[mark.due]
    }

    /// Marks that a range's choice was made of so many first values. There is no stamp after the greatest, so nothing is kept under that one.
    pub fn keep(&mut self, range: usize, due: usize)
        requires range { range < length self.old.choices.items }
        requires due { due < length self.old.stamps.items }
        ensures { Keeps range due self.old self.new }
    {
        self.choices[range] = Mark {
            due,
            stamp: usable(self.stamps[due]),
            is_open: true,
            blame: 0,
        };
    }

    /// Notes of a range whether it is open, and else what its values are to be blamed on.
    pub fn accuse(&mut self, range: usize, is_open: bool, blame: u64)
        requires { range < length self.old.choices.items }
        ensures { Accuses range is_open blame self.old self.new }
    {
        let mark = self.choices[range];
        self.choices[range] = Mark {
            due: mark.due,
            stamp: mark.stamp,
            is_open,
            blame,
        };
    }

    /// Gives so many first values another stamp, since the last of them is bound.
    pub fn renew(&mut self, due: usize)
        requires { due < length self.old.stamps.items }
        ensures { Renews due self.old self.new }
    {
        self.stamps[due] = self.stamps[due].saturating_add(1);
    }
}

/// A stamp, but 0, which is none, in the place of the greatest.
fn usable(stamp: u64) -> u64
    ensures up { result ≤ stamp }
    ensures small { result < 2 ^ 64 - 1 }
{
    if stamp == u64::MAX { 0 } else { stamp }
}
