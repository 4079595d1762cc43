//! Carriers of types.
ghost use Rattle.std.specs.Prelude.{◌≡◌, IfOk, map};
ghost use Rattle.zf_meaning.specs.Prelude.{definition_of, first_named, globals_of, type_of, types, IsPower, members, OnOne, several_of};
ghost use Rattle.zf_meaning.specs.{AreCarriers, definition_number, environment_of, found_number, IsCarrier, IsTypeSetIf, type_number};

use crate::env::Env;
use crate::global_outcome::type_set;
use crate::number_set::built_numbers;
use std::alloc::{AllocError, Global};
use zf_families::power::power;
use zf_outcome::{Found, Gathered, on_several};
use zf_term::{Entry, Globals, Infinite, ZType};
use zf_tree::Listed;
use zf_value::Outcome;

/// The set of all values of a type.
#[cycle(carrier)]
#[tactic(auto, using(zf_term::proofs::TypesSeen::seen))]
pub fn carrier_of(ztype: &ZType<'_>, env: &Env<'_, '_>) -> Result<Outcome, AllocError>
    ensures { IfOk result (IsCarrier (environment_of env.now) (type_of ztype.now)) }
{
    match ztype {
        ZType::Int => built_numbers(env, Infinite::Num),
        ZType::Basic(name) => basic_carrier(name.as_slice(), env),
        ZType::Power(member) => {
            let members = carrier_of(member.get(), env)?;
            power_of(env.allocator(), &members)
        }
        ZType::Product(parts) => {
            let carriers = carriers_of(parts.get().as_slice(), env)?;
            on_several(env.allocator(), Listed::Product, carriers)
        }
    }
}

/// The carriers of several types.
#[cycle(carrier)]
fn carriers_of(parts: &[ZType<'_>], env: &Env<'_, '_>) -> Result<Gathered, AllocError>
    ensures { IfOk result (λ s. AreCarriers (environment_of env.now) (types (map type_of parts.now)) (several_of s)) }
{
    let alloc = env.allocator();
    let mut gathered = Gathered::with_room(alloc, parts.len())?;
    for part in parts {
        let carrier = carrier_of(part, env)?;
        gathered.add(alloc, Found::own(carrier))?;
    }
    Ok(gathered)
}

fn basic_carrier(name: &[u8], env: &Env<'_, '_>) -> Result<Outcome, AllocError>
    ensures { IfOk result (IsTypeSetIf (environment_of env.now) (type_number (environment_of env.now) name.now)) }
{
    match number_named(env.globals(), name) {
        Some(number) => type_set(env, number),
        None => Ok(Outcome::Undefined),
    }
}

/// The number of the given set or free type of this name.
pub fn number_named(globals: &Globals<'_>, name: &[u8]) -> Option<usize>
    ensures { result ≡ found_number (first_named (λ d. d.name) name.now (globals_of globals.now)) }
{
    match globals.entries.get(name) {
        Some(entry) => number_of(entry),
        None => None,
    }
}

/// The number of what is defined, if it is a given set or free type.
fn number_of(entry: &Entry<'_>) -> Option<usize>
    ensures { result ≡ definition_number (definition_of entry.now) }
{
    match entry {
        Entry::Given(number) => Some(*number),
        Entry::Free(number, _) => Some(*number),
        Entry::Constructor(_, _, _) => None,
        Entry::Abbrev(_, _, _) => None,
        Entry::Schema(_) => None,
    }
}

fn power_of(alloc: Global, carrier: &Outcome) -> Result<Outcome, AllocError>
    ensures { IfOk result (OnOne carrier.now (λ v. IsPower (members v))) }
{
    match carrier {
        Outcome::Is(set) => power(alloc, set),
        Outcome::Undefined => Ok(Outcome::Undefined),
        Outcome::Out => Ok(Outcome::Out),
    }
}
