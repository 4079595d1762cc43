//! What the words of a command line ask for.
ghost use Rattle.std.specs.Prelude.{◌≡◌, [], IfOk, IsErrOf, codes, map, true};
ghost use Rattle.clap.specs.Words.{found_of, first_of, rows_of};
ghost use Rattle.zf_command.specs.{Asks, HasBadNumber, HasBadSetting, IsAsked, IsBare, IsExploration, IsJob, IsNumberOf, IsRefused, IsRequest, IsSetting, IsShown, lists_objects, other_words, Refuses, RefusesExploration, RefusesShown, size_words, values_of};
ghost use Rattle.zf_command.specs.declared.job.UsageFault.TheVariants.{BadWords};

use crate::clashes::{counts_parts, draws_objects, lists_objects};
use crate::command::zf;
use crate::job::{Asked, Exploration, Job, Request, Setting, UsageFault};
use crate::limit::{LIMIT_MAX, STATES_MAX, limit_of};
use crate::matches::{all_in, first_in, format_in, is_flagged, option_in, value_in};
use crate::numerals::given_number;
use crate::sizes::{other_words, size_words, sizes_of};
use clap::ArgMatches;
use clap::error::ErrorKind;
use std::alloc::Global;
use std::convert::AsStr;
use zf_data::{Items, Word};

/// What the words after the program's own name ask for.
pub fn job_of<S: AsStr>(alloc: Global, words: &[S]) -> Result<Asked, UsageFault>
    ensures asked { IfOk result (IsAsked (map S.text words.now)) }
    ensures refused { IsErrOf result BadWords → IsRefused (map S.text words.now) }
{
    let command = zf(alloc)?;
    match command.try_get_matches_from(words) {
        Ok(matches) => match matches.subcommand() {
            Some((name, inner)) => work_in(alloc, name, inner),
            None => unreachable!(),
        },
        Err(error) => match error.kind() {
            ErrorKind::OutOfMemory => Err(UsageFault::OutOfMemory),
            ErrorKind::DisplayHelp => {
                let text = error.to_string(alloc)?;
                Ok(Asked::About(Word { text }))
            }
            ErrorKind::DisplayVersion => {
                let text = error.to_string(alloc)?;
                Ok(Asked::About(Word { text }))
            }
            _ => Err(UsageFault::BadWords),
        },
    }
}

/// The file and the job of the matches of the subcommand of this name.
fn work_in(alloc: Global, name: &str, matches: &ArgMatches<'_>) -> Result<Asked, UsageFault>
    ensures asked { IfOk result (Asks name.now (rows_of (found_of matches.now))) }
    ensures refused { IsErrOf result BadWords → Refuses name.now (rows_of (found_of matches.now)) }
{
    let file = value_in(alloc, matches, "FILE")?;
    let job = job_in(alloc, name, matches)?;
    Ok(Asked::Work(file, job))
}

fn job_in(alloc: Global, name: &str, matches: &ArgMatches<'_>) -> Result<Job, UsageFault>
    ensures asked { IfOk result (IsJob name.now (rows_of (found_of matches.now))) }
    ensures refused { IsErrOf result BadWords → Refuses name.now (rows_of (found_of matches.now)) }
{
    if name == "check" {
        return check_in(matches);
    }
    if name == "reach" {
        return Ok(Job::Reach(exploration_in(alloc, matches)?));
    }
    let request = request_in(alloc, matches)?;
    if name == "why" {
        return Ok(Job::Why(request));
    }
    Ok(Job::Show(shown_in(alloc, matches, request)?))
}

/// What `check` is asked for.
fn check_in(matches: &ArgMatches<'_>) -> Result<Job, UsageFault>
    ensures asked { IfOk result (IsJob (codes "check") (rows_of (found_of matches.now))) }
    ensures refused { IsErrOf result BadWords → lists_objects (rows_of (found_of matches.now)) ≡ true }
{
    if lists_objects(matches) {
        return Err(UsageFault::BadWords);
    }
    Ok(Job::Check {
        types: is_flagged(matches, "types"),
        details: is_flagged(matches, "details"),
        format: format_in(matches),
    })
}

/// What `show` and `why` both are asked for.
fn request_in(alloc: Global, matches: &ArgMatches<'_>) -> Result<Request, UsageFault>
    ensures asked { IfOk result (IsRequest (rows_of (found_of matches.now))) }
    ensures plain { IfOk result IsBare }
    ensures refused { IsErrOf result BadWords → HasBadSetting (values_of (codes "NAME=SIZE") (rows_of (found_of matches.now))) (rows_of (found_of matches.now)) }
{
    let name = value_in(alloc, matches, "SCHEMA")?;
    let words = all_in(matches, "NAME=SIZE").unwrap_or(&[]);
    let setting = setting_in(alloc, matches, words)?;
    let held = option_in(alloc, matches, "with")?;
    let details = is_flagged(matches, "details");
    Ok(Request {
        name,
        setting,
        after: None,
        held,
        only: None,
        limit: None,
        tests: false,
        details,
        format: format_in(matches),
    })
}

/// With what `show` alone is asked for.
fn shown_in(
    alloc: Global,
    matches: &ArgMatches<'_>,
    request: Request,
) -> Result<Request, UsageFault>
    ensures kept { IsRequest (rows_of (found_of matches.now)) request → IfOk result (IsRequest (rows_of (found_of matches.now))) }
    ensures shown { IfOk result (IsShown (rows_of (found_of matches.now))) }
    ensures refused { IsErrOf result BadWords → RefusesShown (rows_of (found_of matches.now)) }
{
    if counts_parts(matches) {
        return Err(UsageFault::BadWords);
    }
    let mut shown = request;
    shown.after = option_in(alloc, matches, "after")?;
    shown.only = option_in(alloc, matches, "only")?;
    shown.limit = limit_of(first_in(matches, "limit"), LIMIT_MAX)?;
    shown.tests = is_flagged(matches, "tests");
    Ok(shown)
}

/// What `reach` is asked for.
fn exploration_in(alloc: Global, matches: &ArgMatches<'_>) -> Result<Exploration, UsageFault>
    ensures asked { IfOk result (IsExploration (rows_of (found_of matches.now))) }
    ensures refused { IsErrOf result BadWords → RefusesExploration (rows_of (found_of matches.now)) }
{
    if draws_objects(matches) {
        return Err(UsageFault::BadWords);
    }
    let words = all_in(matches, "OPERATION").unwrap_or(&[]);
    let operations = other_words(alloc, words)?;
    if operations.as_slice().is_empty() {
        return Err(UsageFault::BadWords);
    }
    let sizes = size_words(alloc, words)?;
    let setting = setting_in(alloc, matches, &sizes)?;
    let limit = limit_of(first_in(matches, "limit"), STATES_MAX)?;
    Ok(Exploration {
        state: value_in(alloc, matches, "STATE")?,
        initial: value_in(alloc, matches, "INIT")?,
        operations,
        sought: option_in(alloc, matches, "find")?,
        setting,
        limit,
        graph: is_flagged(matches, "dot"),
        details: is_flagged(matches, "details"),
        format: format_in(matches),
    })
}

/// How large the given sets and the sets of numbers are, where these are the size words.
fn setting_in(
    alloc: Global,
    matches: &ArgMatches<'_>,
    words: &[&str],
) -> Result<Setting, UsageFault>
    ensures read { IfOk result (IsSetting (map (λ w. w.now) words.now) (rows_of (found_of matches.now))) }
    ensures refused { IsErrOf result BadWords → HasBadSetting (map (λ w. w.now) words.now) (rows_of (found_of matches.now)) }
{
    let sizes = sizes_of(alloc, words)?;
    let numbers = number_in(matches, "numbers")?;
    let size = number_in(matches, "size")?;
    Ok(Setting {
        sizes,
        size,
        numbers,
    })
}

fn number_in(matches: &ArgMatches<'_>, id: &str) -> Result<Option<u64>, UsageFault>
    ensures read { IfOk result (λ number. IsNumberOf (first_of id.now (rows_of (found_of matches.now))) number) }
    ensures refused { IsErrOf result BadWords → HasBadNumber (first_of id.now (rows_of (found_of matches.now))) }
{
    given_number(first_in(matches, id))
}
