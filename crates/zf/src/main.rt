//! The program.
#![tactic(auto)]

use std::io::IsTerminal;
use std::process::ExitCode;
use std::rt::Env;
use std::{env, io};
use zf_command::UsageFault;
use zf_engine::program::{program, refuse};

/// A person at a terminal reads why words are refused; a program that reads standard error has the first line alone.
fn main(rt: HostRuntime) -> ExitCode {
    let explained = rt.stderr().is_terminal();
    match words_of(&rt) {
        Ok(words) => ExitCode::from(program(&rt, words.as_slice(), explained)),
        Err(error) => ExitCode::from(refuse(&rt, fault_of(error), explained)),
    }
}

/// The words after the program's own name.
fn words_of<R: Env + AllocGlobal>(rt: &R) -> io::Result<Vec<String>> {
    let words = env::args(rt)?.skip(1).collect(rt.alloc())?;
    Ok(words)
}

/// Words that cannot be read as text are bad arguments.
fn fault_of(error: io::Error) -> UsageFault {
    match error.kind() {
        io::ErrorKind::OutOfMemory => UsageFault::OutOfMemory,
        _ => UsageFault::BadWords,
    }
}
