//! The search for the bindings of a schema, or the answer where none is begun.
ghost use Rattle.std.specs.Prelude.{◌<◌, length, IfOk, IfErr};
ghost use Rattle.zf_answers.specs.Prelude.{option_copied, Begins, BeginsCounting, planted_goal, portion, RefusesStart, Environment, schema_of, HasLength};
ghost use Rattle.zf_answers.specs.{CanBeSearched, environment_in, IfAnswered, schema_in, TellsComponent, TellsOut};

use crate::stop::Stop;
use crate::subject::Subject;
use std::alloc::Global;
use zf_enum::Bindings;
use zf_instances::Instances;
use zf_lines::Status;
use zf_messages::texts;
use zf_ranges::StartFault;
use zf_term::Flat;
use zf_value::Value;

/// The search for the bindings of the schema that come after the named one and have the values that are held.
pub fn begin<'s, 'e, 'g, 'a>(
    subject: &Subject<'e, 'g, 'a>,
    after: Option<&'s [Value]>,
) -> Result<Instances<'s, 'e, 'g, 'a>, Stop>
    requires searched { CanBeSearched subject.now }
    requires named { HasLength (option_copied after) (length (schema_in subject.now).comps) }
    ensures begins { IfOk result (λ i. Begins (environment_in subject.now) (schema_in subject.now) (portion (option_copied after.entry) subject.now.held.now) (planted_goal i.names i.search) i.search.stage) }
    ensures stop { IfErr result (λ s. IfAnswered s (TellsOut (environment_in subject.now) (schema_in subject.now).comps)) }
{
    let alloc = subject.style.alloc;
    match Instances::start(
        alloc,
        subject.arena,
        subject.schema,
        subject.env,
        after,
        subject.held,
    ) {
        Ok(instances) => Ok(instances),
        Err(fault) => Err(not_begun(alloc, subject.schema, fault)),
    }
}

/// The same search, which counts its tests.
pub fn begin_counting<'s, 'e, 'g, 'a>(
    subject: &Subject<'e, 'g, 'a>,
    after: Option<&'s [Value]>,
) -> Result<Bindings<'s, 'e, 'g, 'a>, Stop>
    requires searched { CanBeSearched subject.now }
    requires named { HasLength (option_copied after) (length (schema_in subject.now).comps) }
    ensures begins { IfOk result (λ b. BeginsCounting (environment_in subject.now) (schema_in subject.now) (portion (option_copied after.entry) subject.now.held.now) b) }
    ensures stop { IfErr result (λ s. IfAnswered s (TellsOut (environment_in subject.now) (schema_in subject.now).comps)) }
{
    let alloc = subject.style.alloc;
    match Bindings::start(
        alloc,
        subject.arena,
        subject.schema,
        subject.env,
        after,
        subject.held,
    ) {
        Ok(bindings) => Ok(bindings),
        Err(fault) => Err(not_begun(alloc, subject.schema, fault)),
    }
}

/// The answer where no search is begun.
pub fn not_begun(alloc: Global, flat: &Flat<'_>, fault: StartFault) -> Stop
    requires { (e : Environment) × RefusesStart e (schema_of flat.now).comps fault }
    ensures { (e : Environment) → RefusesStart e (schema_of flat.now).comps fault → IfAnswered result (TellsOut e (schema_of flat.now).comps) }
{
    match fault {
        StartFault::DeclaredOut(place) => declared_out(alloc, flat, place),
        StartFault::OutOfMemory => Stop::OutOfMemory,
    }
}

/// The answer where the component at a place has a declared set that is out.
fn declared_out(alloc: Global, flat: &Flat<'_>, place: usize) -> Stop
    requires { place < length (schema_of flat.now).comps }
    ensures { IfAnswered result (TellsComponent (schema_of flat.now).comps place) }
{
    let component = &flat.components.as_slice()[place];
    match texts::declared_out(alloc, component.name.as_slice()) {
        Ok(message) => Stop::told(alloc, message, Status::PastBounds),
        Err(_) => Stop::OutOfMemory,
    }
}
