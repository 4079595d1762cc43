//! A search that is begun anew for each state.
ghost use Rattle.std.specs.Prelude.{◌≡◌, ◌≢◌, IfOk, IfSome, OnOk, List, [], None, map, true, unwrap_or};
ghost use Rattle.zf_steps.specs.Prelude.{AllByRecursion, held_at, IsNoneOut, RefusesStart, Environment, environment_of, Begins, CanHold, conjuncts_of, planted_goal, portion, property, Comp, Schema, schema_of, value_order, Advances, SameRanges};
ghost use Rattle.std.specs.Option.{is_some};
ghost use Rattle.zf_steps.specs.{AreFor, AreMarkedHeld, BeginsFor, CanSearch, CanSearchAll, Fits, IsFor, operation_of, stage_at, system_of};

use crate::cursor::{Cursor, Part};
use crate::finder::Finder;
use crate::stepped::Stepped;
use crate::system::{Operation, System};
use std::alloc::{AllocError, Global};
use zf_enum::Search;
use zf_instances::Instances;
use zf_meaning::Env;
use zf_places::values_of;
use zf_ranges::StartFault;
use zf_term::Flat;
use zf_value::Value;
use zf_walk::Step;

/// The search for the bindings of a schema, begun again whenever other values are held. What the first begins with stays in the schema's arena; so does what another does where values of other components are held.
#[derive(Drop)]
pub struct Renewed<'p, 'e, 'g, 'a> {
    flat: &'p Flat<'a>,
    env: &'e Env<'g, 'a>,
    search: Option<Instances<'e, 'e, 'g, 'a>>,
    /// For each component whether a value of it was held when that was begun.
    given: Vec<bool>,
}

impl<'p, 'e, 'g, 'a> Renewed<'p, 'e, 'g, 'a> {
    /// Nothing is searched for yet.
    pub fn new(alloc: Global, flat: &'p Flat<'a>, env: &'e Env<'g, 'a>) -> Renewed<'p, 'e, 'g, 'a>
        ensures { CanSearch (environment_of env.now) (schema_of flat.now) → IsFor result (environment_of env.now) (schema_of flat.now) }
    {
        Renewed {
            flat,
            env,
            search: None,
            given: Vec::new(alloc),
        }
    }

    fn alloc(&self) -> Global {
        *self.given.allocator()
    }

    /// Stands before the first binding that has these values, by the components' places.
    fn hold(&mut self, held: &[Option<Value>]) -> Result<Stepped, AllocError>
        requires { (e : Environment) × (a : Schema) × IsFor self.old e a }
        ensures kept { (e : Environment) (a : Schema) → IsFor self.old e a → IsFor self.new e a }
        ensures begins { OnOk result ((e : Environment) (a : Schema) → IsFor self.old e a → BeginsFor e a held.now (stage_at self.new)) }
    {
        let given = are_given(self.alloc(), held)?;
        let last = self.last(held);
        let begun = self.begun(last, held)?;
        self.search = Some(begun);
        self.given = given;
        let row = Vec::new(self.alloc());
        let step = Step::End;
        Ok(Stepped { step, row })
    }

    /// Goes on to the next binding that is not False.
    fn advance(&mut self) -> Result<Stepped, AllocError>
        ensures kept { (e : Environment) (a : Schema) → IsFor self.old e a → IsFor self.new e a }
        ensures ranges { SameRanges (stage_at self.old) (stage_at self.new) }
        ensures answer { IfOk result (λ s. (e : Environment) (a : Schema) → IsFor self.old e a → Advances value_order (property e a.conjuncts) s.step (stage_at self.old) (stage_at self.new)) }
        ensures row { IfOk result (λ s. s.row.items ≡ unwrap_or (stage_at self.new).last []) }
    {
        let alloc = self.alloc();
        match &mut self.search {
            None => {
                let row = Vec::new(alloc);
                let step = Step::End;
                Ok(Stepped { step, row })
            }
            Some(search) => advanced(alloc, search),
        }
    }

    /// The last search, if it can be begun again with these values.
    fn last(&mut self, held: &[Option<Value>]) -> Option<Instances<'e, 'e, 'g, 'a>>
        requires { (e : Environment) × (a : Schema) × IsFor self.old e a }
        ensures same { (self.new.env ≡ self.old.env) × (self.new.flat ≡ self.old.flat) × (self.new.search ≡ None) }
        ensures again { IfSome result (λ i. CanHold (environment_of self.old.env.now) (schema_of self.old.flat.now) held.now (planted_goal i.names i.search) i.search.stage.ranges) }
    {
        match self.search.take() {
            None => None,
            Some(search) => {
                if are_held_again(&self.given, held) {
                    Some(search)
                } else {
                    None
                }
            }
        }
    }

    /// The search for what has these values: the last one begun again, if there is one, or one from the beginning.
    fn begun(
        &self,
        last: Option<Instances<'e, 'e, 'g, 'a>>,
        held: &[Option<Value>],
    ) -> Result<Instances<'e, 'e, 'g, 'a>, AllocError>
        requires can { CanSearch (environment_of self.now.env.now) (schema_of self.now.flat.now) }
        requires again { IfSome last (λ i. CanHold (environment_of self.now.env.now) (schema_of self.now.flat.now) held.now (planted_goal i.names i.search) i.search.stage.ranges) }
        ensures { IfOk result (λ i. Begins (environment_of self.now.env.now) (schema_of self.now.flat.now) (portion None held.now) (planted_goal i.names i.search) i.search.stage) }
    {
        match last {
            Some(search) => search.holding(self.alloc(), self.flat, self.env, held),
            None => self.started(held),
        }
    }

    /// One from the beginning.
    fn started(&self, held: &[Option<Value>]) -> Result<Instances<'e, 'e, 'g, 'a>, AllocError>
        requires { CanSearch (environment_of self.now.env.now) (schema_of self.now.flat.now) }
        ensures { IfOk result (λ i. Begins (environment_of self.now.env.now) (schema_of self.now.flat.now) (portion None held.now) (planted_goal i.names i.search) i.search.stage) }
    {
        let arena = self.flat.components.arena();
        match Instances::start(self.alloc(), arena, self.flat, self.env, None, held) {
            Ok(begun) => Ok(begun),
            Err(fault) => Err(no_memory(fault)),
        }
    }
}

impl<'p, 'e, 'g, 'a> Finder for Renewed<'p, 'e, 'g, 'a> {
    ghost use Rattle.zf_steps.specs.Renewing.{place_of};

    ghost place = { place_of };

    fn go(&mut self, held: Option<&[Option<Value>]>) -> Result<Stepped, AllocError> {
        match held {
            None => self.advance(),
            Some(held) => self.hold(held),
        }
    }
}

/// The next binding of a search.
fn advanced(alloc: Global, search: &mut Instances<'_, '_, '_, '_>) -> Result<Stepped, AllocError>
    ensures goal { planted_goal search.new.names search.new.search ≡ planted_goal search.old.names search.old.search }
    ensures ranges { SameRanges search.old.search.stage search.new.search.stage }
    ensures answer { IfOk result (λ s. Advances value_order (conjuncts_of (planted_goal search.old.names search.old.search)) s.step search.old.search.stage search.new.search.stage) }
    ensures row { IfOk result (λ s. s.row.items ≡ unwrap_or search.new.search.stage.last []) }
{
    let step = search.advance()?;
    let row = values_of(alloc, search)?;
    Ok(Stepped { step, row })
}

/// The searches of a specification, none of which is begun.
pub fn searches_of<'p, 'e, 'g, 'a>(
    system: &System<'_, 'p, Flat<'a>>,
    env: &'e Env<'g, 'a>,
) -> Result<Cursor<Renewed<'p, 'e, 'g, 'a>>, AllocError>
    requires { CanSearchAll (system_of (environment_of env.now) schema_of system.now) }
    ensures { IfOk result (λ c. Fits IsFor (system_of (environment_of env.now) schema_of system.now) c.state c.init c.operations.items c.part) }
{
    let operations = searches_among(system.alloc, env, &system.operations)?;
    Ok(Cursor {
        state: Renewed::new(system.alloc, system.test.schema, env),
        init: Renewed::new(system.alloc, system.init.schema, env),
        operations,
        part: Part::Initial,
        stop: Vec::new(system.alloc),
    })
}

/// The searches of operations.
fn searches_among<'p, 'e, 'g, 'a>(
    alloc: Global,
    env: &'e Env<'g, 'a>,
    operations: &[Operation<'p, Flat<'a>>],
) -> Result<Vec<Renewed<'p, 'e, 'g, 'a>>, AllocError>
    requires { AllByRecursion (λ o. CanSearch (environment_of env.now) (operation_of schema_of o).schema) operations.now }
    ensures { IfOk result (λ ss. AreFor IsFor (environment_of env.now) (map (λ o. (operation_of schema_of o).schema) operations.now) ss.items) }
{
    let mut searches = Vec::with_capacity(alloc, operations.len())?;
    for operation in operations {
        searches.push(Renewed::new(alloc, operation.schema, env))?;
    }
    Ok(searches)
}

/// For each component whether a value of it is held.
fn are_given(alloc: Global, held: &[Option<Value>]) -> Result<Vec<bool>, AllocError>
    ensures { IfOk result (λ given. given.items ≡ map is_some held.now) }
{
    let mut given = Vec::with_capacity(alloc, held.len())?;
    for value in held {
        given.push(value.is_some())?;
    }
    Ok(given)
}

/// Whether of each component of which a value was held one is held again.
fn are_held_again(given: &[bool], held: &[Option<Value>]) -> bool
    ensures { result ≡ true → AreMarkedHeld given.now held.now }
{
    for place in 0..given.len() {
        if given[place] {
            if !is_held(held, place) {
                return false;
            }
        }
    }
    true
}

/// Whether a value of the component at this place is held.
fn is_held(held: &[Option<Value>], place: usize) -> bool
    ensures { result ≡ true → held_at place held.now ≢ None }
{
    match held.get(place) {
        Some(value) => value.is_some(),
        None => false,
    }
}

/// Where no declared set is out, what is missing is memory.
fn no_memory(fault: StartFault) -> AllocError
    requires { (e : Environment) × (cs : List Comp) × IsNoneOut e cs × RefusesStart e cs fault }
{
    match fault {
        StartFault::DeclaredOut(_) => unreachable!(),
        StartFault::OutOfMemory => AllocError,
    }
}
