//! The command that `clap` is given, as tables of what each command takes.
ghost use Rattle.std.specs.Prelude.{IfOk};
ghost use Rattle.clap.specs.Words.{new_app};
ghost use Rattle.zf_command.specs.{check_app, IsArg, IsCommand, IsTop, reach_app, parameter_rule, show_app, why_app, with_parameters, zf_app, zf_top};

use clap::{Arg, ArgAction, Command};
use std::alloc::{AllocError, Global};

/// What `--version` tells.
const VERSION: &str = "1.0";

/// What a command takes: its name, and its line of help.
#[derive(Clone, Copy)]
enum Parameter<'a> {
    /// `NAME`
    One(&'a str, &'a str),
    /// `NAME...`
    Several(&'a str, &'a str),
    /// `[NAME]...`
    Any(&'a str, &'a str),
    /// `[--NAME VALUE]`, after the name that of the value.
    Value(&'a str, &'a str, &'a str),
    /// `[--NAME]`
    Flag(&'a str, &'a str),
    /// `[-t]`, with the letter first.
    Letter(char, &'a str, &'a str),
    /// `[-d]` or `[--NAME]`, with the letter first.
    Either(char, &'a str, &'a str),
}

use Parameter::{Any, Either, Flag, Letter, One, Several, Value};

const NUMBERS: Parameter<'static> = Value(
    "numbers",
    "N",
    "The greatest number: \\num is -N..N, \\nat is 0..N, \\nat_1 is 1..N",
);

const SIZE: Parameter<'static> = Value(
    "size",
    "N",
    "The size of each given set without a word of its own",
);

const JSON: Parameter<'static> = Flag(
    "json",
    "Writes an object of JSON in each line, for programs",
);

const DETAILS: Parameter<'static> = Either(
    'd',
    "details",
    "Writes after each fault what it is about",
);

const FILE: Parameter<'static> = One("FILE", "The specification; - is standard input");

const SCHEMA: Parameter<'static> = One("SCHEMA", "The name of the schema");

const SIZES: Parameter<'static> = Any("NAME=SIZE", "The size of a given set, one word for each");

/// `zf`
pub fn zf<'a>(alloc: Global) -> Result<Command<'a>, AllocError>
    ensures { IfOk result (λ c. IsTop c zf_app) }
{
    let command = top_command(alloc)?
        .subcommand(check_command(alloc)?)?
        .subcommand(show_command(alloc)?)?
        .subcommand(why_command(alloc)?)?
        .subcommand(reach_command(alloc)?)?;
    Ok(command)
}

/// `zf`, before it is given its subcommands.
fn top_command<'a>(alloc: Global) -> Result<Command<'a>, AllocError>
    ensures { IfOk result (λ c. IsCommand c zf_top) }
{
    let command = Command::new(alloc, "zf")
        .bin_name("zf")?
        .about("A type checker and finite animator for Z in the LaTeX markup of fuzz")
        .version(VERSION)
        .no_binary_name(true)
        .subcommand_required(true);
    Ok(command)
}

/// `check [-t] [--json] [--details] FILE`
fn check_command<'a>(alloc: Global) -> Result<Command<'a>, AllocError>
    ensures { IfOk result (λ c. IsCommand c check_app) }
{
    let types = Letter('t', "types", "Writes also what is defined, with its types");
    let about = "Writes the faults of a specification, one a line";
    command_of(alloc, "check", about, &[types, JSON, DETAILS, FILE])
}

/// `show [--after TEXT] [--with TEXT] [--only TEXT] [--numbers N] [--size N] [--limit N] [--tests] [--json] [--details] FILE SCHEMA [NAME=SIZE]...`
fn show_command<'a>(alloc: Global) -> Result<Command<'a>, AllocError>
    ensures { IfOk result (λ c. IsCommand c show_app) }
{
    let after = "Writes only what comes after this binding, a line of another run or one like it";
    let held =
        "Writes only the bindings in which some components have these values, a line of only these components";
    let only = "Writes only these components, parted by commas, and each line once";
    let parameters = [
        Value("after", "TEXT", after),
        Value("with", "TEXT", held),
        Value("only", "TEXT", only),
        NUMBERS,
        SIZE,
        Value(
            "limit",
            "N",
            "Writes at most so many bindings, 1 to 1000000000",
        ),
        Flag(
            "tests",
            "Writes also how many tests of predicates were finished",
        ),
        JSON,
        DETAILS,
        FILE,
        SCHEMA,
        SIZES,
    ];
    command_of(
        alloc,
        "show",
        "Writes the bindings of a schema, one a line",
        &parameters,
    )
}

/// `why [--with TEXT] [--numbers N] [--size N] [--json] [--details] FILE SCHEMA [NAME=SIZE]...`
fn why_command<'a>(alloc: Global) -> Result<Command<'a>, AllocError>
    ensures { IfOk result (λ c. IsCommand c why_app) }
{
    let held =
        "Asks only of the bindings in which some components have these values, a line of only these components";
    let details =
        "Writes after each fault what it is about, after a relation what its sides come to";
    let parameters = [
        Value("with", "TEXT", held),
        NUMBERS,
        SIZE,
        JSON,
        Either('d', "details", details),
        FILE,
        SCHEMA,
        SIZES,
    ];
    let about = "Writes a binding of a schema, or why it has none";
    command_of(alloc, "why", about, &parameters)
}

/// `reach [--find SCHEMA] [--dot] [--limit N] [--numbers N] [--size N] [--json] [--details] FILE STATE INIT OPERATION... [NAME=SIZE]...`
fn reach_command<'a>(alloc: Global) -> Result<Command<'a>, AllocError>
    ensures { IfOk result (λ c. IsCommand c reach_app) }
{
    let limit = "Writes at most so many states, or meets with --find, 1 to 1000000";
    let operation =
        "The name of the schema of an operation, one word for each; a word NAME=SIZE is the size of a given set";
    let parameters = [
        Value(
            "find",
            "SCHEMA",
            "Writes a shortest way to a state that satisfies SCHEMA",
        ),
        Flag("dot", "Writes a graph for Graphviz"),
        Value("limit", "N", limit),
        NUMBERS,
        SIZE,
        JSON,
        DETAILS,
        FILE,
        One("STATE", "The name of the schema of the state"),
        One("INIT", "The name of the schema of the initial states"),
        Several("OPERATION", operation),
    ];
    let about = "Writes the states that can be reached and the steps between them, one a line";
    command_of(alloc, "reach", about, &parameters)
}

/// The command of this name that takes these parameters.
fn command_of<'a>(
    alloc: Global,
    name: &'a str,
    about: &'a str,
    parameters: &[Parameter<'a>],
) -> Result<Command<'a>, AllocError>
    ensures { IfOk result (λ c. IsCommand c (with_parameters (new_app name.now) parameters.now)) }
{
    let mut command = Command::new(alloc, name).about(about);
    for parameter in parameters {
        command = command.arg(arg_of(alloc, *parameter))?;
    }
    Ok(command)
}

/// The argument of a parameter.
fn arg_of<'a>(alloc: Global, parameter: Parameter<'a>) -> Arg<'a>
    ensures { IsArg result (parameter_rule parameter.entry) }
{
    match parameter {
        One(name, help) => Arg::new(alloc, name).required(true).help(help),
        Several(name, help) => Arg::new(alloc, name)
            .required(true)
            .action(ArgAction::Append)
            .help(help),
        Any(name, help) => Arg::new(alloc, name).action(ArgAction::Append).help(help),
        Value(name, value, help) => Arg::new(alloc, name)
            .long(name)
            .value_name(value)
            .help(help),
        Flag(name, help) => Arg::new(alloc, name)
            .long(name)
            .action(ArgAction::SetTrue)
            .help(help),
        Letter(letter, name, help) => Arg::new(alloc, name)
            .short(letter)
            .action(ArgAction::SetTrue)
            .help(help),
        Either(letter, name, help) => Arg::new(alloc, name)
            .short(letter)
            .long(name)
            .action(ArgAction::SetTrue)
            .help(help),
    }
}
