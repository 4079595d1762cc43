//! Environments: the globals, with the sizes of given sets and free types, which numbers there are, and the outcome of each.
ghost use Rattle.std.specs.Prelude.{◌≡◌, [], ◌∷◌, None, Some, IfOk, IfErr, MatchOption, OnOk, length, slice_get};
ghost use Rattle.zf_meaning.specs.Prelude.{globals_of};
ghost use Rattle.zf_meaning.specs.{AreComplete, AreWorkedOut, environment_of, given_sets, IsEnvironment, IsRefusal, longer};

use crate::global_outcome::outcome_at;
use crate::sizes::{Size, SizeFault, check_sizes, given_names, sizes_of};
use std::alloc::{AllocError, Global};
use zf_term::Globals;
use zf_value::Outcome;

/// The globals of a text at stated sizes, with or without an end of the numbers. The outcome of each abbreviation is worked out once.
#[derive(Drop)]
pub struct Env<'g, 'a> {
    globals: &'g Globals<'a>,
    sizes: Vec<u64>,
    outcomes: Vec<Outcome>,
    numbers: Option<u16>,
}

impl<'g, 'a> Env<'g, 'a> {
    /// The globals at these sizes of the given sets. With a greatest number `\num` has the numbers from its opposite to it; without one it is infinite.
    pub fn new(
        alloc: Global,
        globals: &'g Globals<'a>,
        sizes: &[Size],
        numbers: Option<u16>,
    ) -> Result<Env<'g, 'a>, SizeFault>
        ensures complete { OnOk result (AreComplete (given_sets (globals_of globals.now)) sizes.now) }
        ensures is { IfOk result (λ e. IsEnvironment (globals_of globals.now) sizes.now numbers (environment_of e)) }
        ensures refused { IfErr result (IsRefusal (given_sets (globals_of globals.now)) sizes.now) }
    {
        check_sizes(alloc, &given_names(alloc, globals)?, sizes)?;
        let sizes = sizes_of(alloc, globals, sizes)?;
        Ok(worked_out(alloc, globals, sizes, numbers)?)
    }

    pub fn globals(&self) -> &'g Globals<'a>
        ensures { globals_of result.now ≡ (environment_of self.now).globals }
    {
        self.globals
    }

    /// The greatest number that there is, if numbers end.
    pub fn numbers(&self) -> Option<u16>
        ensures { result ≡ (environment_of self.now).numbers }
    {
        self.numbers
    }

    /// How many elements the given set or free type of this number has.
    pub fn size(&self, number: u32) -> Option<u64>
        ensures { result ≡ slice_get (environment_of self.now).sizes number }
    {
        self.sizes.get(number as usize).copied()
    }

    /// The outcome of the global at this place.
    pub(crate) fn outcome(&self, place: usize) -> Option<&Outcome>
        ensures { MatchOption result (slice_get (environment_of self.now).outcomes place ≡ None) (λ o. slice_get (environment_of self.now).outcomes place ≡ Some o.now) }
    {
        self.outcomes.get(place)
    }

    /// How many names have an outcome.
    pub fn count(&self) -> usize
        ensures { result ≡ length (environment_of self.now).outcomes }
    {
        self.outcomes.len()
    }

    /// Gives the next name after all others this outcome.
    pub fn add(&mut self, outcome: Outcome) -> Result<(), AllocError>
        ensures { OnOk result (environment_of self.new ≡ longer (environment_of self.old) (outcome ∷ [])) }
    {
        self.outcomes.push(outcome)?;
        Ok(())
    }

    /// The same globals at the same sizes, with the same numbers.
    pub fn copy(&self, alloc: Global) -> Result<Env<'g, 'a>, AllocError>
        ensures { IfOk result (λ e. environment_of e ≡ environment_of self.now) }
    {
        let mut sizes = Vec::new(alloc);
        sizes.extend_from_slice(&self.sizes)?;
        Ok(Env {
            globals: self.globals,
            sizes,
            outcomes: copied(alloc, &self.outcomes)?,
            numbers: self.numbers,
        })
    }

    pub(crate) fn allocator(&self) -> Global {
        *self.sizes.allocator()
    }
}

/// The outcomes of the globals at these sizes, each by those before it.
fn worked_out<'g, 'a>(
    alloc: Global,
    globals: &'g Globals<'a>,
    sizes: Vec<u64>,
    numbers: Option<u16>,
) -> Result<Env<'g, 'a>, AllocError>
    ensures globals { IfOk result (λ e. (environment_of e).globals ≡ globals_of globals.now) }
    ensures sizes { IfOk result (λ e. (environment_of e).sizes ≡ sizes.items) }
    ensures numbers { IfOk result (λ e. (environment_of e).numbers ≡ numbers) }
    ensures outcomes { IfOk result (λ e. AreWorkedOut (environment_of e)) }
{
    let mut env = Env {
        globals,
        sizes,
        outcomes: Vec::new(alloc),
        numbers,
    };
    for place in 0..globals.len() {
        let outcome = outcome_at(&env, place)?;
        env.outcomes.push(outcome)?;
    }
    Ok(env)
}

/// The same outcomes.
fn copied(alloc: Global, outcomes: &[Outcome]) -> Result<Vec<Outcome>, AllocError>
    ensures { IfOk result (λ out. out.items ≡ outcomes.now) }
{
    let mut out = Vec::with_capacity(alloc, outcomes.len())?;
    for outcome in outcomes {
        out.push(outcome.copy(alloc)?)?;
    }
    Ok(out)
}
