//! Whether schemas make a machine.
ghost use Rattle.std.specs.Prelude.{IfOk, MatchOption, map, option_map};
ghost use Rattle.zf_machines.specs.Prelude.{AllByRecursion, AreStates, before_of};
ghost use Rattle.zf_machines.specs.{AllowsSought, CanStep, HasShape, LacksBehind, LacksFirst, LacksStepFirst, named_of, schemas_of, SoughtLacks};

use crate::schemas::{Named, Schemas};
use bumpalo::Bump;
use std::alloc::AllocError;
use zf_steps::{States, init_lacks, sought_lacks, step_lacks, with_strokes};

/// A schema that lacks a component, both by their names.
#[derive(Clone, Copy)]
pub struct Lack<'p, 'a> {
    pub schema: &'p [u8],
    pub component: &'a [u8],
}

/// The first of the schemas that lacks a component, with the first that it lacks.
pub fn lack_of<'p, 'a>(
    arena: &'a Bump,
    schemas: &Schemas<'p, 'a>,
) -> Result<Option<Lack<'p, 'a>>, AllocError>
    ensures { IfOk result (λ l. MatchOption l (HasShape (schemas_of schemas.now)) (λ k. LacksFirst (schemas_of schemas.now) k.schema.now k.component.now)) }
{
    let before = schemas.state.schema.components.as_slice();
    let stroked = with_strokes(arena, before)?;
    let after = stroked.as_slice();
    let states = States { before, after };
    match init_lacks(states, schemas.init.schema) {
        Some(component) => {
            let schema = schemas.init.name;
            Ok(Some(Lack { schema, component }))
        }
        None => Ok(later_lack(states, schemas)),
    }
}

/// The first schema after that of the initial states that lacks a component.
fn later_lack<'p, 'a>(states: States<'_, 'a>, schemas: &Schemas<'p, 'a>) -> Option<Lack<'p, 'a>>
    requires { AreStates states }
    ensures { MatchOption result (AllByRecursion (CanStep (before_of states.entry)) (schemas_of schemas.now).operations × AllowsSought (before_of states.entry) (schemas_of schemas.now).sought) (λ k. LacksBehind (before_of states.entry) (schemas_of schemas.now) k.schema.now k.component.now) }
{
    match step_lack(states, &schemas.operations) {
        Some(lack) => Some(lack),
        None => sought_lack(states, schemas.sought),
    }
}

/// The first component of the state that what is sought has at another type.
fn sought_lack<'p, 'a>(
    states: States<'_, 'a>,
    sought: Option<Named<'p, 'a>>,
) -> Option<Lack<'p, 'a>>
    ensures { MatchOption result (AllowsSought (before_of states.entry) (option_map named_of sought.entry)) (λ k. SoughtLacks (before_of states.entry) (option_map named_of sought.entry) k.schema.now k.component.now) }
{
    match sought {
        None => None,
        Some(sought) => match sought_lacks(states.before, sought.schema) {
            None => None,
            Some(component) => {
                let schema = sought.name;
                Some(Lack { schema, component })
            }
        },
    }
}

/// The first of the operations that lacks a component.
fn step_lack<'p, 'a>(states: States<'_, 'a>, operations: &[Named<'p, 'a>]) -> Option<Lack<'p, 'a>>
    requires { AreStates states }
    ensures { MatchOption result (AllByRecursion (CanStep (before_of states.entry)) (map named_of operations.now)) (λ k. LacksStepFirst (before_of states.entry) (map named_of operations.now) k.schema.now k.component.now) }
{
    for operation in operations {
        if let Some(component) = step_lacks(states, operation.schema) {
            let schema = operation.name;
            return Some(Lack { schema, component });
        }
    }
    None
}
