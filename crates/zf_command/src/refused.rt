//! Why words are refused, for people to read. Nothing is promised of it but that it answers.
//!
//! Each line begins with two blanks, and the last one names the help that says more.

use crate::clashes::{counts_parts, draws_objects, lists_objects};
use crate::command::zf;
use crate::limit::{LIMIT_MAX, STATES_MAX, limit_of};
use crate::matches::{all_in, first_in};
use crate::numerals::given_number;
use crate::sizes::{is_size_word, parts_of};
use clap::ArgMatches;
use clap::error::{Error, ErrorKind};
use std::alloc::{AllocError, Global};
use std::convert::AsStr;
use zf_data::Word;

/// The lines for words that cannot be read as text.
pub const UNREAD: &str = "  a word that is not UTF-8\n  zf --help says more";

/// The line where no operation is named.
const NO_OPERATION: &str = "no OPERATION";

/// The lines for words that `job_of` refuses.
pub fn why_refused<S: AsStr>(alloc: Global, words: &[S]) -> Result<Word, AllocError> {
    let mut lines = String::new(alloc);
    append_causes(alloc, words, &mut lines)?;
    append_help(words, &mut lines)?;
    Ok(Word { text: lines })
}

/// What `clap` finds wrong with the words, or which values are bad.
fn append_causes<S: AsStr>(
    alloc: Global,
    words: &[S],
    lines: &mut String,
) -> Result<(), AllocError> {
    let command = zf(alloc)?;
    match command.try_get_matches_from(words) {
        Ok(matches) => match matches.subcommand() {
            Some((name, inner)) => append_bad_values(name, inner, lines),
            None => Ok(()),
        },
        Err(error) => append_error(alloc, &error, lines),
    }
}

/// What `clap` finds wrong.
fn append_error(alloc: Global, error: &Error, lines: &mut String) -> Result<(), AllocError> {
    let text = error.to_string(alloc)?;
    match error.kind() {
        ErrorKind::MissingSubcommand => append_line("no command: check, show, why or reach", lines),
        ErrorKind::MissingRequiredArgument => append_missing(text.as_str(), lines),
        _ => append_message(text.as_str(), lines),
    }
}

/// The arguments that are missing, which the text has one a line.
fn append_missing(text: &str, lines: &mut String) -> Result<(), AllocError> {
    append_if(text.contains("\n  <FILE>"), "no FILE", lines)?;
    append_if(text.contains("\n  <SCHEMA>"), "no SCHEMA", lines)?;
    append_if(text.contains("\n  <STATE>"), "no STATE", lines)?;
    append_if(text.contains("\n  <INIT>"), "no INIT", lines)?;
    append_if(text.contains("\n  <OPERATION>"), NO_OPERATION, lines)
}

/// The lines of the text up to those on how the command is used.
fn append_message(text: &str, lines: &mut String) -> Result<(), AllocError> {
    let message = text.strip_prefix("error: ").unwrap_or(text);
    for line in message.lines() {
        if line.starts_with("Usage: ") || line.starts_with("For more information") {
            return Ok(());
        }
        append_line(line.trim_start(), lines)?;
    }
    Ok(())
}

/// The values that are no sizes, no number or no limit, and the options that exclude one another.
fn append_bad_values(
    name: &str,
    matches: &ArgMatches<'_>,
    lines: &mut String,
) -> Result<(), AllocError> {
    if name == "check" {
        return append_if(lists_objects(matches), "-t: not with --json", lines);
    }
    if name == "reach" {
        let words = all_in(matches, "OPERATION").unwrap_or(&[]);
        append_bad_words(words, lines)?;
        append_bad_numbers(matches, STATES_MAX, lines)?;
        return append_if(draws_objects(matches), "--dot: not with --json", lines);
    }
    append_bad_sizes(all_in(matches, "NAME=SIZE").unwrap_or(&[]), lines)?;
    append_bad_numbers(matches, LIMIT_MAX, lines)?;
    if name == "why" {
        return Ok(());
    }
    append_if(counts_parts(matches), "--only: not with --tests", lines)
}

/// A line, if it applies.
fn append_if(applies: bool, line: &str, lines: &mut String) -> Result<(), AllocError> {
    if !applies {
        return Ok(());
    }
    append_line(line, lines)
}

/// The words that are no sizes.
fn append_bad_sizes(words: &[&str], lines: &mut String) -> Result<(), AllocError> {
    for word in words {
        append_bad_size(word, lines)?;
    }
    Ok(())
}

fn append_bad_size(word: &str, lines: &mut String) -> Result<(), AllocError> {
    if parts_of(word).is_none() {
        write!(lines, "  {word}: NAME=SIZE is expected\n")?;
    }
    Ok(())
}

/// The size words that are no sizes, or that there are no others.
fn append_bad_words(words: &[&str], lines: &mut String) -> Result<(), AllocError> {
    let mut has_operation = false;
    for word in words {
        if is_size_word(word) {
            append_bad_size(word, lines)?;
        } else {
            has_operation = true;
        }
    }
    append_if(!has_operation, NO_OPERATION, lines)
}

/// The options that are no number or no limit.
fn append_bad_numbers(
    matches: &ArgMatches<'_>,
    most: u64,
    lines: &mut String,
) -> Result<(), AllocError> {
    for option in ["numbers", "size"] {
        if given_number(first_in(matches, option)).is_err() {
            write!(lines, "  --{option}: a number\n")?;
        }
    }
    if limit_of(first_in(matches, "limit"), most).is_err() {
        write!(lines, "  --limit: a number from 1 to {most}\n")?;
    }
    Ok(())
}

/// The last line, which ends in no newline.
fn append_help<S: AsStr>(words: &[S], lines: &mut String) -> Result<(), AllocError> {
    let name = match words.first() {
        Some(word) => word.as_str(),
        None => "",
    };
    if name == "check" || name == "show" || name == "why" || name == "reach" {
        return write!(lines, "  zf {name} --help says more");
    }
    lines.push_str("  zf --help says more")
}

/// A line, if it is not empty.
fn append_line(line: &str, lines: &mut String) -> Result<(), AllocError> {
    if line.is_empty() {
        return Ok(());
    }
    write!(lines, "  {line}\n")
}
