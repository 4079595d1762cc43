//! Runs the rows of each file of rows, and says which are not as they are written.
#![tactic(auto)]

mod printed;
mod requests;
mod texts;
mod trees;

use crate::trees::Tally;
use std::process::ExitCode;
use std::rt::Files;
use std::{fs, io};

/// The files of rows of trees.
static TREES: &str = "examples forms_in_places prefixes separators sizes";

/// The files of rows of requests.
static REQUESTS: &str = "
    answers calculus command_lines details disjunction examples held large limits meaning
    missing names needed numbers objects order out_of_bounds parts quoted ranges reach
    refusals resuming sessions sizes small tests truths types unread usual_z values why
";

fn main(rt: HostRuntime) -> ExitCode {
    let mut status = 0;
    for name in TREES.split_whitespace() {
        if let Err(error) = tell_trees(&rt, name) {
            let _ = println!(&rt; "trees/{name}: {error}");
            status = 1;
        }
    }
    for name in REQUESTS.split_whitespace() {
        if let Err(error) = tell_requests(&rt, name) {
            let _ = println!(&rt; "{name}: {error}");
            status = 1;
        }
    }
    ExitCode::from(status)
}

/// Prints each row of the file of trees that is not as written, and how many are.
fn tell_trees<R: Files + Print + AllocGlobal>(rt: &R, name: &str) -> io::Result<()> {
    let file = format!(in rt.alloc(); "trees/{name}.rows")?;
    let text = fs::read_to_string(rt, file.as_str())?;
    let as_written = tell_tree_rows(rt, name, text.as_str())?;
    println!(rt; "trees/{name}: {as_written} as written")
}

/// Prints each of the rows of trees that is not as written. How many are.
fn tell_tree_rows<R: Print + AllocGlobal>(rt: &R, name: &str, text: &str) -> io::Result<u64> {
    let mut rows = trees::Rows::new(rt.alloc());
    let mut tally = Tally {
        as_written: 0,
        others: String::new(rt.alloc()),
    };
    for (place, line) in text.lines().enumerate() {
        rows.read(line, &mut tally)?;
        if !tally.others.is_empty() {
            println!(rt; "trees/{name}.rows:{}:{}", place + 1, tally.others)?;
            tally.others.clear();
        }
    }
    Ok(tally.as_written)
}

/// Prints each row of the file of requests that is not as written, and how many are.
fn tell_requests<R: Files + Print + AllocGlobal>(rt: &R, name: &str) -> io::Result<()> {
    let file = format!(in rt.alloc(); "rows/{name}.rows")?;
    let text = fs::read_to_string(rt, file.as_str())?;
    let mut rows = requests::Rows::new(rt.alloc());
    for (place, line) in text.lines().enumerate() {
        let Some(found) = rows.read(rt, line)? else {
            continue;
        };
        println!(rt; "{name}.rows:{}: {found}", place + 1)?;
    }
    println!(rt; "{name}: {} as written", rows.as_written())
}
