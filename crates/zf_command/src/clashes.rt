//! What is asked for together, though one excludes the other.
ghost use Rattle.std.specs.Prelude.{◌≡◌};
ghost use Rattle.clap.specs.Words.{found_of, rows_of};
ghost use Rattle.zf_command.specs.Jobs as spec;

use crate::matches::{first_in, is_flagged};
use clap::ArgMatches;

/// Whether `check` is asked for objects and for what is defined.
pub fn lists_objects(matches: &ArgMatches<'_>) -> bool
    ensures { result ≡ spec.lists_objects (rows_of (found_of matches.now)) }
{
    is_flagged(matches, "types") && is_flagged(matches, "json")
}

/// Whether `show` is asked for the number of tests and for some of the components.
pub fn counts_parts(matches: &ArgMatches<'_>) -> bool
    ensures { result ≡ spec.counts_parts (rows_of (found_of matches.now)) }
{
    is_flagged(matches, "tests") && first_in(matches, "only").is_some()
}

/// Whether `reach` is asked for objects and for a graph.
pub fn draws_objects(matches: &ArgMatches<'_>) -> bool
    ensures { result ≡ spec.draws_objects (rows_of (found_of matches.now)) }
{
    is_flagged(matches, "dot") && is_flagged(matches, "json")
}
