//! A search goes on where memory was refused: the steps are the same, and each finished test counts once.
//! `bench/refuse-growths` refuses each growth of this test in turn.
ghost use Rattle.std.specs.Prelude.{IfOk, length};
ghost use Rattle.zf_meaning.specs.{environment_of};
ghost use Rattle.zf_checker.specs.{AreWellTyped};
ghost use Rattle.zf_enum.specs.{property};
ghost use Rattle.zf_finite.specs.{IsFinite};
ghost use Rattle.zf_term.specs.{globals_of, schema_of};
ghost use Rattle.zf_walk.specs.{AreDueWithin};

use crate::tests::holds::holds;
use bumpalo::Bump;
use std::alloc::{AllocError, Global};
use std::test::Fail;
use zf_checker::check_spec;
use zf_data::Text;
use zf_enum::{Bindings, Search};
use zf_finite::finite;
use zf_instances::Instances;
use zf_meaning::{Env, Size};
use zf_parse::read_spec;
use zf_term::{Flat, Globals};
use zf_walk::Step;

const SOURCE: &str = r"\begin{zed}
[NAME]
\end{zed}
\begin{schema}{Names}
x : NAME
\end{schema}
\begin{schema}{Bounded}
x : 0 \upto 2; y : 0 \upto 1
\where
x * 9223372036854775807 \geq 0 \\ y < 0 \lor x < 2
\end{schema}
\begin{schema}{Sets}
x, y : 0 \upto 1
\where
\{x\} \cup \{y\} = 0 \upto 1
\end{schema}
";

/// Schemas, how many bindings hold, and the number of tests at the end.
static SCHEMAS: [(&str, u64, u64); 3] = [("Names", 2, 0), ("Bounded", 4, 9), ("Sets", 2, 4)];

#[test]
fn steps(rt: HostRuntime) -> Result<(), Fail> {
    let arena = Bump::new(rt.alloc());
    let globals = globals_in(rt.alloc(), &arena)?;
    let env = env_in(rt.alloc(), &globals)?;
    are_steps(rt.alloc(), &arena, &env)
}

fn are_steps<'a>(alloc: Global, arena: &'a Bump, env: &Env<'_, 'a>) -> Result<(), Fail>
    requires { AreWellTyped (environment_of env.now).globals }
{
    for (name, holding, tests) in SCHEMAS {
        let schema = schema_in(env, name)?;
        let mut search = Bindings::start(alloc, arena, schema, env, None, &[])?;
        are_counted(&mut search, name, holding, tests)?;
    }
    Ok(())
}

fn are_counted(
    search: &mut Bindings<'_, '_, '_, '_>,
    name: &str,
    holding: u64,
    tests: u64,
) -> Result<(), Fail> {
    are_found(search, name, holding)?;
    holds(search.tests() == tests, name)?;
    has_ended(search, name)
}

/// A search that counts no tests finds the same.
#[test]
fn uncounted_steps(rt: HostRuntime) -> Result<(), Fail> {
    let arena = Bump::new(rt.alloc());
    let globals = globals_in(rt.alloc(), &arena)?;
    let env = env_in(rt.alloc(), &globals)?;
    are_uncounted_steps(rt.alloc(), &arena, &env)
}

fn are_uncounted_steps<'a>(alloc: Global, arena: &'a Bump, env: &Env<'_, 'a>) -> Result<(), Fail>
    requires { AreWellTyped (environment_of env.now).globals }
{
    for (name, holding, _) in SCHEMAS {
        let schema = schema_in(env, name)?;
        let mut search = Instances::start(alloc, arena, schema, env, None, &[])?;
        are_found(&mut search, name, holding)?;
    }
    Ok(())
}

/// So many bindings hold, and then there is none, however often it is asked for.
fn are_found<S: Search>(search: &mut S, name: &str, holding: u64) -> Result<(), Fail> {
    for _ in 0..holding {
        holds(next(search) == Ok(Step::Holds), name)?;
    }
    has_ended(search, name)?;
    has_ended(search, name)
}

fn has_ended<S: Search>(search: &mut S, name: &str) -> Result<(), Fail> {
    holds(next(search) == Ok(Step::End), name)
}

/// The next step, which is asked for once more where memory is refused.
fn next<S: Search>(search: &mut S) -> Result<Step, AllocError> {
    match search.advance() {
        Ok(step) => Ok(step),
        Err(_) => search.advance(),
    }
}

/// What the source defines.
fn globals_in<'a>(alloc: Global, arena: &'a Bump) -> Result<Globals<'a>, Fail>
    ensures { IfOk result (λ g. AreWellTyped (globals_of g)) }
{
    let spec = read_spec(alloc, arena, SOURCE.as_bytes())?;
    let checked = check_spec(alloc, arena, &spec)?;
    Ok(checked.globals)
}

/// An environment of two names.
fn env_in<'g, 'a>(alloc: Global, globals: &'g Globals<'a>) -> Result<Env<'g, 'a>, Fail>
    requires { AreWellTyped (globals_of globals.now) }
    ensures { IfOk result (λ e. AreWellTyped (environment_of e).globals) }
{
    let name = Text::of(alloc, b"NAME")?;
    Ok(Env::new(alloc, globals, &[Size { name, count: 2 }], None)?)
}

/// The schema of the name, whose bindings can be searched for.
fn schema_in<'g, 'a>(env: &Env<'g, 'a>, name: &str) -> Result<&'g Flat<'a>, Fail>
    requires { AreWellTyped (environment_of env.now).globals }
    ensures finite { IfOk result (λ s. IsFinite (environment_of env.now).numbers (environment_of env.now).globals (schema_of s.now)) }
    ensures due { IfOk result (λ s. AreDueWithin (property (environment_of env.now) (schema_of s.now).conjuncts) (length (schema_of s.now).comps)) }
{
    let globals = env.globals();
    let Some(schema) = globals.schema(name) else {
        return Err(Fail::new("no schema"));
    };
    let Ok(()) = finite(env.numbers(), schema, globals) else {
        return Err(Fail::new("not finite"));
    };
    Ok(schema)
}
