//! Whether some row makes some predicates other than False.
ghost use Rattle.std.specs.Prelude.{◌≡◌, ◌<◌, ◌++◌, ◌∷◌, [], IfOk, IfSome, List, OnOk, Option, drop, length, map, slice_get};
ghost use Rattle.zf_why.specs.Prelude.{Comp, comp_of, conjunct_of, Schema, schema_of, Environment, environment_of, Begins, portion, IsNoneOut, RefusesStart, chosen_of, OneOf};
ghost use Rattle.zf_value.specs.declared.plain.Value as value;
ghost use Rattle.zf_why.specs.{CanBegin, Decides, HasNoValue, HasValue};

use bumpalo::Bump;
use std::alloc::{AllocError, Global};
use zf_data::arena::{Chunked, Items};
use zf_enum::Search;
use zf_instances::Instances;
use zf_meaning::Env;
use zf_ranges::StartFault;
use zf_term::{Component, Conjunct, Flat};
use zf_value::Value;
use zf_walk::Step;

/// The components of a schema in an environment, of which some values are held, and whether details are reported.
#[derive(Drop)]
pub struct Setting<'s, 'g, 'a> {
    pub alloc: Global,
    pub arena: &'a Bump,
    pub components: &'s [Component<'a>],
    pub env: &'s Env<'g, 'a>,
    pub held: &'s [Option<Value>],
    pub details: bool,
}

impl<'s, 'g, 'a> Setting<'s, 'g, 'a> {
    /// Whether some row makes the given conjuncts and the chosen ones other than False.
    pub fn allows(
        &self,
        given: &[Conjunct<'a>],
        conjuncts: &[Conjunct<'a>],
        chosen: &[bool],
    ) -> Result<bool, AllocError>
        requires each { length chosen.now ≡ length conjuncts.now }
        requires begins { CanBegin (environment_of self.now.env.now) (map comp_of self.now.components.now) (map conjunct_of given.now ++ map conjunct_of conjuncts.now) }
        ensures { IfOk result (Decides (environment_of self.now.env.now) (map comp_of self.now.components.now) self.now.held.now (map conjunct_of given.now ++ chosen_of (map conjunct_of conjuncts.now) chosen.now)) }
    {
        let mut part = shared(self.arena, given)?;
        push_chosen(&mut part, conjuncts, chosen)?;
        self.has_row(part)
    }

    /// Whether some row makes this conjunct other than False.
    pub fn allows_alone(&self, conjunct: &Conjunct<'a>) -> Result<bool, AllocError>
        requires { CanBegin (environment_of self.now.env.now) (map comp_of self.now.components.now) (conjunct_of conjunct.now ∷ []) }
        ensures { IfOk result (Decides (environment_of self.now.env.now) (map comp_of self.now.components.now) self.now.held.now (conjunct_of conjunct.now ∷ [])) }
    {
        let part = Chunked::of(self.arena, conjunct.share()?)?;
        self.has_row(part)
    }

    /// Whether some row makes these conjuncts other than False.
    fn has_row(&self, conjuncts: Chunked<'a, Conjunct<'a>>) -> Result<bool, AllocError>
        requires { CanBegin (environment_of self.now.env.now) (map comp_of self.now.components.now) (map conjunct_of conjuncts) }
        ensures { IfOk result (Decides (environment_of self.now.env.now) (map comp_of self.now.components.now) self.now.held.now (map conjunct_of conjuncts.entry)) }
    {
        let components = shared_components(self.arena, self.components)?;
        let flat = Flat {
            components,
            conjuncts,
        };
        has_event(self, &flat, self.held)
    }

    /// Whether the component at a place has a value.
    pub fn has_value(&self, place: usize) -> Result<bool, AllocError>
        requires place { place < length self.now.components.now }
        requires begins { CanBegin (environment_of self.now.env.now) (map comp_of self.now.components.now) [] }
        ensures { IfOk result (λ has. IfSome (slice_get (map comp_of self.now.components.now) place) (λ c. OneOf (HasValue (environment_of self.now.env.now) self.now.held.now place c) (HasNoValue (environment_of self.now.env.now) self.now.held.now place c) has)) }
    {
        let components = Items::of(self.arena, self.components[place].share()?)?;
        let flat = Flat {
            components,
            conjuncts: Chunked::new(self.arena),
        };
        has_event(self, &flat, held_from(self.held, place))
    }
}

/// What is held of the component at a place and of those after it.
fn held_from(held: &[Option<Value>], place: usize) -> &[Option<Value>]
    ensures { result.now ≡ drop place held.now }
{
    held.split_at(place.min(held.len())).1
}

/// The same conjuncts.
fn shared<'a>(
    arena: &'a Bump,
    conjuncts: &[Conjunct<'a>],
) -> Result<Chunked<'a, Conjunct<'a>>, AllocError>
    ensures { IfOk result (λ cs. cs ≡ conjuncts.now) }
{
    let mut same = Chunked::new(arena);
    for conjunct in conjuncts {
        same.push(conjunct.share()?)?;
    }
    Ok(same)
}

/// The same components.
fn shared_components<'a>(
    arena: &'a Bump,
    components: &[Component<'a>],
) -> Result<Items<'a, Component<'a>>, AllocError>
    ensures { IfOk result (λ cs. cs ≡ components.now) }
{
    let mut same = Items::with_room(arena, components.len())?;
    for component in components {
        same.push(component.share()?)?;
    }
    Ok(same)
}

/// Takes also the chosen ones of some conjuncts.
pub fn push_chosen<'a>(
    part: &mut Chunked<'a, Conjunct<'a>>,
    conjuncts: &[Conjunct<'a>],
    chosen: &[bool],
) -> Result<(), AllocError>
    requires { length chosen.now ≡ length conjuncts.now }
    ensures { OnOk result (part.new ≡ part.old ++ chosen_of conjuncts.now chosen.now) }
{
    for place in 0..conjuncts.len() {
        if chosen[place] {
            part.push(conjuncts[place].share()?)?;
        }
    }
    Ok(())
}

/// Whether a schema has an event where these values are held.
fn has_event<'a>(
    setting: &Setting<'_, '_, 'a>,
    flat: &Flat<'a>,
    held: &[Option<Value>],
) -> Result<bool, AllocError>
    requires { CanBegin (environment_of setting.now.env.now) (schema_of flat.now).comps (schema_of flat.now).conjuncts }
    ensures { IfOk result (Decides (environment_of setting.now.env.now) (schema_of flat.now).comps held.now (schema_of flat.now).conjuncts) }
{
    match Instances::start(setting.alloc, setting.arena, flat, setting.env, None, held) {
        Ok(begun) => {
            let mut search = begun;
            finds(&mut search)
        }
        Err(fault) => Err(no_memory(fault)),
    }
}

/// Whether a search finds an event.
fn finds<S: Search>(search: &mut S) -> Result<bool, AllocError>
    ensures { IfOk result (λ found. (e : Environment) (a : Schema) (held : List (Option value.Value)) → Begins e a (portion None held) (S.goal search.old) (S.stage search.old) → Decides e a.comps held a.conjuncts found) }
{
    match search.advance()? {
        Step::Holds => Ok(true),
        Step::Breaks => Ok(true),
        Step::End => Ok(false),
    }
}

/// Where no declared set is out, what is missing is memory.
fn no_memory(fault: StartFault) -> AllocError
    requires { (e : Environment) × (cs : List Comp) × IsNoneOut e cs × RefusesStart e cs fault }
{
    match fault {
        StartFault::DeclaredOut(_) => unreachable!(),
        StartFault::OutOfMemory => AllocError,
    }
}
