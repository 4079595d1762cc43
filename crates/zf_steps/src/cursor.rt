//! The searches of an exploration, and what a step of one comes to.
ghost use Rattle.std.specs.Prelude.{◌≡◌, IfOk, OnOk};
ghost use Rattle.zf_steps.specs.Prelude.{Environment, HasFewer, IsSeenAs, Schema};
ghost use Rattle.zf_steps.specs.contracts.node.NodePartialEq.TheImpl as nodes;
ghost use Rattle.zf_steps.specs.declared.node.Node.TheVariants.{State};
ghost use Rattle.zf_steps.specs.{BeginsFor, BeginsState, begun_as, GoesOn, held_by, IsForIn, IsFound, IsSight, operation_of, rows_ahead, sought_in, stage_in, system_of};

use crate::finder::{Finder, advance, begin};
use crate::given::{Schematic, Surrounding};
use crate::node::{Label, Node};
use crate::rows::{held_by, lay_out_stop};
use crate::stepped::Stepped;
use crate::system::{Operation, System};
use std::alloc::{AllocError, Global};
use zf_places::values_at;
use zf_reach::{Beginning, Found, Sight};
use zf_value::Value;
use zf_walk::Step;

/// What is searched for in the turn of a node.
#[derive(Clone, Copy, PartialEq, Eq)]
pub enum Part {
    /// The initial states.
    Initial,
    /// The steps of the operation of this number, from 0.
    Operation(usize),
}

/// The searches of the schema by which states are tested, of that of the initial states, and of the operations, and which of them is gone on with.
#[derive(Drop)]
pub struct Cursor<S> {
    pub state: S,
    pub init: S,
    pub operations: Vec<S>,
    pub part: Part,
    /// What can't be decided.
    pub stop: Vec<u8>,
}

/// Begins the search for the bindings of a schema in which the state before has these values.
pub fn hold<F: Schematic, S: Finder>(
    alloc: Global,
    operation: &Operation<'_, F>,
    search: &mut S,
    values: &[Value],
) -> Result<(), AllocError>
    requires { (e : Environment) × (a : Schema) × IsForIn S.place search.old e a }
    ensures kept { (e : Environment) (a : Schema) → IsForIn S.place search.old e a → IsForIn S.place search.new e a }
    ensures begins { OnOk result ((e : Environment) (a : Schema) → IsForIn S.place search.old e a → BeginsFor e a (held_by (operation_of F.schema operation.now).sources values.now) (stage_in S.place search.new)) }
{
    let held = held_by(alloc, &operation.sources, values)?;
    begin(search, &held)
}

/// Looks at a state.
pub fn look_at<E: Surrounding, F: Schematic, S: Finder>(
    system: &System<'_, '_, F>,
    values: &[Value],
    search: &mut S,
    stop: &mut Vec<u8>,
) -> Result<Sight, AllocError>
    requires { IsForIn S.place search.old (system_of E.environment F.schema system.now).environment (system_of E.environment F.schema system.now).test.schema }
    ensures kept { (e : Environment) (a : Schema) → IsForIn S.place search.old e a → IsForIn S.place search.new e a }
    ensures sees { IfOk result (λ s. IsSeenAs (sought_in (system_of E.environment F.schema system.now)) s (State values.now) stop.new.items) }
{
    hold(system.alloc, &system.test, search, values)?;
    let stepped = advance(search)?;
    sight_of(system, &stepped, stop)
}

/// Begins the turn of a state.
pub fn begin_state<E: Surrounding, F: Schematic, S: Finder>(
    system: &System<'_, '_, F>,
    values: &[Value],
    search: &mut S,
    stop: &mut Vec<u8>,
) -> Result<Beginning, AllocError>
    requires { IsForIn S.place search.old (system_of E.environment F.schema system.now).environment (system_of E.environment F.schema system.now).test.schema }
    ensures kept { (e : Environment) (a : Schema) → IsForIn S.place search.old e a → IsForIn S.place search.new e a }
    ensures begins { IfOk result (λ b. BeginsState (system_of E.environment F.schema system.now) nodes.ghosts.eq (State values.now) b stop.new.items) }
{
    let sight = look_at::<E, F, S>(system, values, search, stop)?;
    Ok(begun_as(sight))
}

/// How the turn of a state begins that is seen so.
fn begun_as(sight: Sight) -> Beginning
    ensures { result ≡ begun_as sight }
{
    match sight {
        Sight::Sought => Beginning::Regular,
        Sight::Other => Beginning::Stray,
        Sight::Untold => Beginning::Out,
    }
}

/// What is seen of a state, by the first step of the search for it in the schema by which it is tested.
fn sight_of<F: Schematic>(
    system: &System<'_, '_, F>,
    stepped: &Stepped,
    stop: &mut Vec<u8>,
) -> Result<Sight, AllocError>
    ensures { IfOk result (λ s. IsSight system.now.form system.now.elements.now (operation_of F.schema system.now.test) stepped.now s stop.new.items) }
{
    match stepped.step {
        Step::Holds => Ok(Sight::Sought),
        Step::Breaks => {
            let row = stepped.row.as_slice();
            lay_out_stop(stop, system.form, system.elements, &system.test, &row)?;
            Ok(Sight::Untold)
        }
        Step::End => Ok(Sight::Other),
    }
}

/// Goes on to the next step by an operation.
pub fn go_on<E: Surrounding, F: Schematic, S: Finder>(
    system: &System<'_, '_, F>,
    operation: &Operation<'_, F>,
    number: usize,
    search: &mut S,
    stop: &mut Vec<u8>,
) -> Result<Found<Node, Label>, AllocError>
    requires { IsForIn S.place search.old (system_of E.environment F.schema system.now).environment (operation_of F.schema operation.now).schema }
    ensures kept { (e : Environment) (a : Schema) → IsForIn S.place search.old e a → IsForIn S.place search.new e a }
    ensures answer { IfOk result (λ f. GoesOn (system_of E.environment F.schema system.now) nodes.ghosts.eq number (operation_of F.schema operation.now) (stage_in S.place search.old) (stage_in S.place search.new) f stop.new.items) }
    ensures fewer { IfOk result (λ f. HasFewer f (rows_ahead (stage_in S.place search.old)) (rows_ahead (stage_in S.place search.new))) }
{
    let stepped = advance(search)?;
    found_of(system, operation, number, &stepped, stop)
}

/// What a step of the search for steps by an operation is.
fn found_of<F: Schematic>(
    system: &System<'_, '_, F>,
    operation: &Operation<'_, F>,
    number: usize,
    stepped: &Stepped,
    stop: &mut Vec<u8>,
) -> Result<Found<Node, Label>, AllocError>
    ensures { IfOk result (λ f. IsFound system.now.form system.now.elements.now number (operation_of F.schema operation.now) stepped.now f stop.new.items) }
{
    let row = stepped.row.as_slice();
    match stepped.step {
        Step::Holds => Ok(Found::Edge(
            Label {
                operation: number,
                values: values_at(system.alloc, &operation.others, &row)?,
            },
            Node::State(values_at(system.alloc, &operation.after, &row)?),
        )),
        Step::Breaks => {
            lay_out_stop(stop, system.form, system.elements, operation, &row)?;
            Ok(Found::Out)
        }
        Step::End => Ok(Found::Over),
    }
}
