//! The machine that schemas make.
ghost use Rattle.std.specs.Prelude.{◌≡◌, IfOk, map};
ghost use Rattle.zf_machines.specs.Prelude.{Environment, AreStates, before_of, operation_of, system_of, schema_of};
ghost use Rattle.zf_machines.specs.{HasShape, IsMachineOf, named_of, schemas_of, test_of};
ghost use Rattle.zf_steps.specs.Shapes as shapes;

use crate::schemas::{Named, Schemas};
use bumpalo::Bump;
use std::alloc::{AllocError, Global};
use zf_print::Spelling;
use zf_steps::{Form, Operation, States, System, init_in, operation_in, test_in, with_strokes};
use zf_term::Flat;

/// The machine that these schemas make, in whatever environment.
pub fn machine_of<'s, 'p, 'a>(
    alloc: Global,
    arena: &'a Bump,
    elements: &'s [Spelling],
    form: Form,
    schemas: &Schemas<'p, 'a>,
) -> Result<System<'s, 'p, Flat<'a>>, AllocError>
    requires { HasShape (schemas_of schemas.now) }
    ensures { IfOk result (λ m. (e : Environment) → IsMachineOf e elements.now form (schemas_of schemas.now) (system_of e schema_of m)) }
{
    let before = schemas.state.schema.components.as_slice();
    let stroked = with_strokes(arena, before)?;
    let after = stroked.as_slice();
    let states = States { before, after };
    let tested = tested_by(schemas);
    let test = test_in(alloc, schemas.state.schema, tested.name, tested.schema)?;
    let init = init_in(alloc, arena, states, schemas.init.name, schemas.init.schema)?;
    let operations = operations_in(alloc, arena, states, &schemas.operations)?;
    Ok(System {
        alloc,
        elements,
        form,
        test,
        init,
        operations,
    })
}

/// The schema by which states are tested: what is sought, or else that of the state.
fn tested_by<'p, 'a>(schemas: &Schemas<'p, 'a>) -> Named<'p, 'a>
    ensures { named_of result ≡ test_of (schemas_of schemas.now) }
{
    match &schemas.sought {
        None => schemas.state,
        Some(sought) => *sought,
    }
}

/// The operations of a machine with these states.
fn operations_in<'p, 'a>(
    alloc: Global,
    arena: &'a Bump,
    states: States<'_, 'a>,
    schemas: &[Named<'p, 'a>],
) -> Result<Vec<Operation<'p, Flat<'a>>>, AllocError>
    requires { AreStates states }
    ensures { IfOk result (λ v. map (operation_of schema_of) v.items ≡ map (λ o. shapes.operation_in (before_of states.entry) (named_of o).name (named_of o).schema) schemas.now) }
{
    let mut operations = Vec::with_capacity(alloc, schemas.len())?;
    for operation in schemas {
        let made = operation_in(alloc, arena, states, operation.name, operation.schema)?;
        operations.push(made)?;
    }
    Ok(operations)
}
