//! The values of `clap`'s matches.
ghost use Rattle.std.specs.Prelude.{◌≡◌, IfOk, map, option_map};
ghost use Rattle.clap.specs.Words.{all_of, first_of, found_of, rows_of};
ghost use Rattle.zf_command.specs.{format_in, is_flagged, value_of};

use clap::ArgMatches;
use std::alloc::{AllocError, Global};
use zf_data::Word;
use zf_format::Format;

/// The value of an argument that is required.
pub fn value_in(alloc: Global, matches: &ArgMatches<'_>, id: &str) -> Result<Word, AllocError>
    ensures { IfOk result (λ w. w ≡ value_of id.now (rows_of (found_of matches.now))) }
{
    Word::of(alloc, first_in(matches, id).unwrap_or(""))
}

/// The value of an option, if it was given.
pub fn option_in(
    alloc: Global,
    matches: &ArgMatches<'_>,
    id: &str,
) -> Result<Option<Word>, AllocError>
    ensures { IfOk result (λ w. w ≡ first_of id.now (rows_of (found_of matches.now))) }
{
    match first_in(matches, id) {
        Some(value) => Ok(Some(Word::of(alloc, value)?)),
        None => Ok(None),
    }
}

/// Whether an argument that is a flag was given.
pub fn is_flagged(matches: &ArgMatches<'_>, id: &str) -> bool
    ensures { result ≡ is_flagged id.now (rows_of (found_of matches.now)) }
{
    match first_in(matches, id) {
        Some(value) => value == "true",
        None => false,
    }
}

/// How the answer is written.
pub fn format_in(matches: &ArgMatches<'_>) -> Format
    ensures { result ≡ format_in (rows_of (found_of matches.now)) }
{
    if is_flagged(matches, "json") {
        Format::Objects
    } else {
        Format::Lines
    }
}

/// The first value of an argument, if it was given.
pub fn first_in<'a>(matches: &ArgMatches<'a>, id: &str) -> Option<&'a str>
    ensures { option_map (λ v. v.now) result ≡ first_of id.now (rows_of (found_of matches.now)) }
{
    matches.get_str(id)
}

/// The values of an argument, if it was given.
pub fn all_in<'m, 'a>(matches: &'m ArgMatches<'a>, id: &str) -> Option<&'m [&'a str]>
    ensures { option_map (λ s. map (λ v. v.now) s.now) result ≡ all_of id.now (rows_of (found_of matches.now)) }
{
    matches.get_strs(id)
}
