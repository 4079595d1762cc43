//! What can be reached from the initial states, or a shortest way to a state that is sought.
ghost use Rattle.std.specs.Prelude.{◌≡◌, ◌≤◌, [], IfErr, IfOk, OnOk, map, option_map, option_to_list};
ghost use Rattle.zf_engine.specs.Prelude.{AllByRecursion, AllZip, IsFinite, device_of, failures_of, HasLimit, read_failures, write_failures, all_of, FirstFails, HasShape, named_of, schemas_of, environment_of, IsNoneOut, globals_of, schema_of};
ghost use Rattle.zf_engine.specs.Explorations as spec;
ghost use Rattle.zf_answers.specs.{Checks, IfAnswered, TellsNoSchema, TellsOut};
ghost use Rattle.zf_engine.specs.{AnswersExploration, AreSchemasOf, HasInfinite, HasLacking, HasOut, IsSchemaOf, IsSearchable, LacksSchema, Reaches};
ghost use Rattle.zf_engine.specs.Explorations.{IsOfSchema};
ghost use Rattle.zf_reach.specs.{ending_of, result_of};

use bumpalo::Bump;
use std::alloc::{AllocError, Global};
use std::io::Write;
use zf_answers::begin::not_begun;
use zf_answers::{Stop, check_finite, env_in, greatest_number, load, schema_named, tell};
use zf_command::{Exploration, STATES_MAX};
use zf_data::Word;
use zf_format::Format;
use zf_lines::{Counted, RunFault, Status};
use zf_machines::{Named, Schemas, Specification, explore_schemas, lack_of, seek_schemas};
use zf_meaning::Env;
use zf_messages::{Report, texts};
use zf_print::spellings_of;
use zf_ranges::component::ranges;
use zf_reach::{Ending, Finding};
use zf_steps::Form;
use zf_term::{Flat, Globals};

/// What is explored, and how faults of the source are reported.
#[derive(Clone, Copy)]
pub struct Task<'s> {
    pub alloc: Global,
    pub exploration: &'s Exploration,
    pub report: Report<'s>,
}

/// The schemas of a machine, and the environment in which they are explored.
#[derive(Drop)]
pub struct Settled<'p, 'a> {
    pub schemas: Schemas<'p, 'a>,
    pub env: Env<'p, 'a>,
}

/// Writes the answer of `reach` for a source.
pub fn reach_source<W: Write>(
    alloc: Global,
    exploration: &Exploration,
    file: &[u8],
    source: &[u8],
    writer: &mut Counted<W>,
) -> Result<Status, RunFault>
    requires unfailed { failures_of writer.old ≡ 0 }
    requires limited { HasLimit exploration.now.limit }
    ensures reaches { Reaches exploration.now file.now source.now (W.contents (device_of writer.old)) (W.contents (device_of writer.new)) result }
    ensures count { failures_of writer.new ≡ write_failures result }
    ensures unread { read_failures result ≡ 0 }
{
    let trees = Bump::new(alloc);
    let arena = Bump::new(alloc);
    let report = Report {
        source,
        file,
        details: exploration.details,
    };
    let task = Task {
        alloc,
        exploration,
        report,
    };
    let globals = match load(alloc, &trees, &arena, report) {
        Ok(globals) => globals,
        Err(stop) => return tell(alloc, exploration.format, file, stop, writer),
    };
    match settled_in(task, &arena, &globals) {
        Ok(Settled { schemas, env }) => reach_schemas(task, &arena, &schemas, &env, writer),
        Err(stop) => tell(alloc, exploration.format, file, stop, writer),
    }
}

/// Writes what the machine of these schemas can reach, or a shortest way to a state that is sought.
fn reach_schemas<'a, W: Write>(
    task: Task<'_>,
    arena: &'a Bump,
    schemas: &Schemas<'_, 'a>,
    env: &Env<'_, 'a>,
    writer: &mut Counted<W>,
) -> Result<Status, RunFault>
    requires unfailed { failures_of writer.old ≡ 0 }
    requires limited { HasLimit task.exploration.now.limit }
    requires searchable { IsSearchable task.exploration.now task.report.source.now (environment_of env.now).globals (schemas_of schemas.now) (environment_of env.now) }
    ensures reaches { Reaches task.entry.exploration.now task.entry.report.file.now task.entry.report.source.now (W.contents (device_of writer.old)) (W.contents (device_of writer.new)) result }
    ensures count { failures_of writer.new ≡ write_failures result }
    ensures unread { read_failures result ≡ 0 }
{
    let elements = spellings_of(task.alloc, env.globals())?;
    let specification = Specification {
        alloc: task.alloc,
        arena,
        env,
        elements: &elements,
        form: form_of(task.exploration),
        schemas,
    };
    let limit = states_limit(task.exploration);
    match &task.exploration.sought {
        None => {
            let ending = explore_schemas(&specification, limit, writer)?;
            Ok(ending_status(ending))
        }
        Some(_) => {
            let finding = seek_schemas(&specification, limit, writer)?;
            Ok(finding_status(finding))
        }
    }
}

/// Whether it is written as lines, as objects or as a graph.
fn form_of(exploration: &Exploration) -> Form
    ensures { result ≡ spec.form_of exploration.now }
{
    if exploration.graph {
        return Form::Graph;
    }
    match exploration.format {
        Format::Lines => Form::Lines,
        Format::Objects => Form::Objects,
    }
}

/// How many states are written at most, or met where one is sought.
fn states_limit(exploration: &Exploration) -> usize
    requires { HasLimit exploration.now.limit }
    ensures is { result ≡ spec.states_limit exploration.now }
    ensures some { 1 ≤ result }
{
    exploration.limit.unwrap_or(STATES_MAX) as usize
}

/// The status by how an exploration ends.
fn ending_status(ending: Ending) -> Status
    ensures { result ≡ spec.ending_status (ending_of ending []) }
{
    match ending {
        Ending::Ended | Ending::Paused => Status::Done,
        Ending::Broken => Status::PastBounds,
    }
}

/// The status by how a search for a state ends.
fn finding_status(finding: Finding) -> Status
    ensures { result ≡ spec.result_status (result_of finding []) }
{
    match finding {
        Finding::Found | Finding::Missing | Finding::OpenEnded => Status::Done,
        Finding::Untold => Status::PastBounds,
    }
}

/// The schemas of the names and the environment, if nothing stands in the way of their exploration.
fn settled_in<'p, 'a>(
    task: Task<'p>,
    arena: &'a Bump,
    globals: &'p Globals<'a>,
) -> Result<Settled<'p, 'a>, Stop>
    requires details { task.report.details ≡ task.exploration.now.details }
    requires checks { Checks task.report.source.now (globals_of globals.now) [] }
    ensures searchable { IfOk result (λ s. IsSearchable task.entry.exploration.now task.entry.report.source.now (environment_of s.env).globals (schemas_of s.schemas) (environment_of s.env)) }
    ensures stop { IfErr result (AnswersExploration task.entry.exploration.now task.entry.report.source.now) }
{
    let schemas = schemas_in(task, globals)?;
    check_shape(task.alloc, arena, &schemas)?;
    let setting = &task.exploration.setting;
    let numbers = greatest_number(task.alloc, setting.numbers)?;
    let env = env_in(
        task.alloc,
        globals,
        setting,
        numbers,
        task.exploration.details,
    )?;
    check_all_finite(task, &env, &schemas)?;
    check_all_declared(task.alloc, &env, &schemas)?;
    Ok(Settled { schemas, env })
}

// ---- the schemas of the names

fn schemas_in<'p, 'a>(task: Task<'p>, globals: &'p Globals<'a>) -> Result<Schemas<'p, 'a>, Stop>
    ensures named { IfOk result (λ p. AreSchemasOf (globals_of globals.now) task.entry.exploration.now (schemas_of p)) }
    ensures stop { IfErr result (λ s. IfAnswered s (LacksSchema task.entry.exploration.now (globals_of globals.now))) }
{
    let exploration = task.exploration;
    let state = named_in(task, globals, &exploration.state)?;
    let init = named_in(task, globals, &exploration.initial)?;
    let operations = operations_in(task, globals, exploration.operations.as_slice())?;
    let sought = named_sought(task, globals)?;
    Ok(Schemas {
        state,
        init,
        operations,
        sought,
    })
}

/// The schema of which a state is sought, if one is.
fn named_sought<'p, 'a>(
    task: Task<'p>,
    globals: &'p Globals<'a>,
) -> Result<Option<Named<'p, 'a>>, Stop>
    ensures named { IfOk result (λ s. AllZip (IsSchemaOf (globals_of globals.now)) (option_to_list task.entry.exploration.now.sought) (option_to_list (option_map named_of s))) }
    ensures stop { IfErr result (λ s. IfAnswered s (λ told status. FirstFails (IsOfSchema (globals_of globals.now)) (TellsNoSchema task.entry.exploration.now.details (globals_of globals.now) told status) (option_to_list task.entry.exploration.now.sought))) }
{
    match &task.exploration.sought {
        None => Ok(None),
        Some(name) => Ok(Some(named_in(task, globals, name)?)),
    }
}

/// The schema of a name, with the name.
fn named_in<'p, 'a>(
    task: Task<'p>,
    globals: &'p Globals<'a>,
    name: &'p Word,
) -> Result<Named<'p, 'a>, Stop>
    ensures named { IfOk result (λ n. IsSchemaOf (globals_of globals.now) name.now (named_of n)) }
    ensures stop { IfErr result (λ s. IfAnswered s (λ told status. TellsNoSchema task.entry.exploration.now.details (globals_of globals.now) told status name.now)) }
{
    let schema = schema_named(task.alloc, globals, name, task.exploration.details)?;
    Ok(Named {
        name: name.as_bytes(),
        schema,
    })
}

/// The schemas of operations.
fn operations_in<'p, 'a>(
    task: Task<'p>,
    globals: &'p Globals<'a>,
    names: &'p [Word],
) -> Result<Vec<Named<'p, 'a>>, Stop>
    ensures named { IfOk result (λ v. AllZip (IsSchemaOf (globals_of globals.now)) names.now (map named_of v.items)) }
    ensures stop { IfErr result (λ s. IfAnswered s (λ told status. FirstFails (IsOfSchema (globals_of globals.now)) (TellsNoSchema task.entry.exploration.now.details (globals_of globals.now) told status) names.now)) }
{
    let mut operations = Vec::with_capacity(task.alloc, names.len())?;
    for name in names {
        operations.push(named_in(task, globals, name)?)?;
    }
    Ok(operations)
}

/// Refuses schemas that make no machine.
fn check_shape<'a>(alloc: Global, arena: &'a Bump, schemas: &Schemas<'_, 'a>) -> Result<(), Stop>
    ensures shape { OnOk result (HasShape (schemas_of schemas.now)) }
    ensures stop { IfErr result (λ s. IfAnswered s (HasLacking (schemas_of schemas.now))) }
{
    let Some(lack) = lack_of(arena, schemas)? else {
        return Ok(());
    };
    let message = texts::no_component(alloc, lack.schema, lack.component)?;
    Err(Stop::told(alloc, message, Status::BadRequest))
}

/// All the schemas, in their order.
fn all_in<'p, 'a>(
    alloc: Global,
    schemas: &Schemas<'p, 'a>,
) -> Result<Vec<Named<'p, 'a>>, AllocError>
    ensures { IfOk result (λ all. map named_of all.items ≡ all_of (schemas_of schemas.now)) }
{
    let mut all = Vec::new(alloc);
    all.push(schemas.state)?;
    all.push(schemas.init)?;
    all.extend_from_slice(&schemas.operations)?;
    all.extend_from_slice(schemas.sought.as_slice())?;
    Ok(all)
}

// ---- finite schemas

/// Refuses schemas of which one is not finite.
fn check_all_finite<'a>(
    task: Task<'_>,
    env: &Env<'_, 'a>,
    schemas: &Schemas<'_, 'a>,
) -> Result<(), Stop>
    requires { task.report.details ≡ task.exploration.now.details }
    ensures ok { OnOk result (AllByRecursion (λ n. IsFinite (environment_of env.now).numbers (environment_of env.now).globals n.schema) (all_of (schemas_of schemas.now))) }
    ensures stop { IfErr result (λ s. IfAnswered s (HasInfinite task.entry.exploration.now task.entry.report.source.now (environment_of env.now).numbers (environment_of env.now).globals (schemas_of schemas.now))) }
{
    let all = all_in(task.alloc, schemas)?;
    for named in &all {
        check_finite(task.alloc, task.report, env, named.name, named.schema)?;
    }
    Ok(())
}

// ---- declared sets

/// Refuses schemas of which one has a declared set that is out.
fn check_all_declared<'a>(
    alloc: Global,
    env: &Env<'_, 'a>,
    schemas: &Schemas<'_, 'a>,
) -> Result<(), Stop>
    requires { AllByRecursion (λ n. IsFinite (environment_of env.now).numbers (environment_of env.now).globals n.schema) (all_of (schemas_of schemas.now)) }
    ensures ok { OnOk result (AllByRecursion (λ n. IsNoneOut (environment_of env.now) n.schema.comps) (all_of (schemas_of schemas.now))) }
    ensures stop { IfErr result (λ s. IfAnswered s (HasOut (environment_of env.now) (schemas_of schemas.now))) }
{
    let all = all_in(alloc, schemas)?;
    for named in &all {
        check_declared(alloc, env, named.schema)?;
    }
    Ok(())
}

/// Refuses a schema with a declared set that is out.
fn check_declared<'a>(alloc: Global, env: &Env<'_, 'a>, schema: &Flat<'a>) -> Result<(), Stop>
    requires { IsFinite (environment_of env.now).numbers (environment_of env.now).globals (schema_of schema.now) }
    ensures ok { OnOk result (IsNoneOut (environment_of env.now) (schema_of schema.now).comps) }
    ensures stop { IfErr result (λ s. IfAnswered s (TellsOut (environment_of env.now) (schema_of schema.now).comps)) }
{
    match ranges(alloc, schema.components.as_slice(), &[], env) {
        Ok(_) => Ok(()),
        Err(fault) => Err(not_begun(alloc, schema, fault)),
    }
}
