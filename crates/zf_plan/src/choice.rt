//! The values of a range that are tried.
ghost use Rattle.std.specs.Prelude.{◌≡◌, ◌≤◌, ◌<◌, ℕ, true, false, length, slice_index_or, Contains, IfOk, OnOk, None};
ghost use Rattle.zf_plan.specs.{IsNextChoice, KeepsChosen, passing};

use std::alloc::{AllocError, Global};
use std::marker::Model;

/// All places of a range, or those that are marked as passing, or those of a list, in any order.
#[derive(Drop)]
pub struct Choice {
    pub all: bool,
    /// Whether all places are chosen only until the same first values come again.
    pub waits: bool,
    pub marked: bool,
    pub passes: Vec<bool>,
    pub places: Vec<usize>,
}

impl Model for Choice {
    ghost use Rattle.std.specs.Prelude.{ℕ, List, Option, Some, None, cond};
    ghost use Rattle.zf_plan.specs.Choosing.{passing};

    ghost Value = { Option (List ℕ) };

    ghost view = { λ c. cond c.all None (Some (cond c.marked (passing 0 c.passes.items) c.places.items)) };
}

impl Choice {
    /// Whether the choice stays, where it was made of the same first values: all places may be chosen only until these come again.
    pub fn stays(&self, again: bool) -> bool
        ensures made { result ≡ true → again ≡ true }
        ensures waits { result ≡ false → again ≡ true → self.now ≡ None }
    {
        again && !(self.all && self.waits)
    }

    /// Marks the places of a list in its stead, where it takes longer to look through it for each of them than through a range of this length.
    pub fn mark(&mut self, length: usize) -> Result<(), AllocError>
        ensures { OnOk result (KeepsChosen length self.old self.new) }
    {
        let places = self.places.len();
        if self.all || self.marked || places.saturating_mul(places) <= length {
            return Ok(());
        }
        self.passes = marked(&self.places, length)?;
        self.marked = true;
        Ok(())
    }

    /// The first chosen place from one on, or where there is none before the end, the end.
    pub fn next(&self, from: usize, end: usize) -> usize
        requires { from ≤ end }
        ensures { IsNextChoice self.now from result }
    {
        if self.all {
            return from;
        }
        if self.marked {
            first_passing(&self.passes, from, end)
        } else {
            least_from(&self.places, from, end)
        }
    }
}

/// For each of so many ranges all its places.
#[tactic(auto, using(crate::proofs::Numbers::default_push))]
pub fn all_chosen(alloc: Global, ranges: usize) -> Result<Vec<Choice>, AllocError>
    ensures all { IfOk result (λ choices. length choices.items ≡ ranges) }
    ensures none { IfOk result (λ choices. (k : ℕ) → slice_index_or choices.items k None ≡ None) }
{
    let mut choices = Vec::new(alloc);
    for range in 0..ranges {
        choices.push(Choice {
            all: true,
            waits: false,
            marked: false,
            passes: Vec::new(alloc),
            places: Vec::new(alloc),
        })?;
    }
    Ok(choices)
}

/// The first place from one on that is marked as passing, up to the end.
fn first_passing(passes: &[bool], from: usize, end: usize) -> usize
    requires { from ≤ end }
    ensures up { from ≤ result }
    ensures skipped { (i : ℕ) → from ≤ i → i < result → Contains (passing 0 passes.now) i → ⊥ }
{
    for place in from..end.min(passes.len()) {
        if passes[place] {
            return place;
        }
    }
    end
}

/// The least of these places from one on, up to the end.
fn least_from(places: &[usize], from: usize, end: usize) -> usize
    requires { from ≤ end }
    ensures up { from ≤ result }
    ensures skipped { (i : ℕ) → from ≤ i → i < result → Contains places.now i → ⊥ }
{
    let mut least = end;
    for i in 0..places.len() {
        let place = places[i];
        if from <= place {
            least = least.min(place);
        }
    }
    least
}

/// For each place of a range of this length whether it is one of these.
fn marked(places: &Vec<usize>, length: usize) -> Result<Vec<bool>, AllocError>
    ensures { IfOk result (λ passes. (i : ℕ) → i < length → Contains places.now.items i → Contains (passing 0 passes.items) i) }
{
    let mut passes = vec![in *places.allocator(); false; length]?;
    for i in 0..places.len() {
        let place = places[i];
        if place < length {
            passes[place] = true;
        }
    }
    Ok(passes)
}
