//! A search for a state of flat schemas in an environment.
ghost use Rattle.std.specs.Prelude.{◌≡◌, ◌≤◌, ℕ, List, IfOk, OnErr};
ghost use Rattle.zf_steps.specs.Prelude.{Appends, IsSearched, device_of, failures_of, read_failures, write_failures, environment_of, result_of, StopsSearch, schema_of};
ghost use Rattle.zf_steps.specs.{CanSearchAll, explored_in, Fits, IsFor, sought_in, system_of, verdict, words};

use crate::cursor::Cursor;
use crate::renewed::{Renewed, searches_of};
use crate::seeking::seek_by;
use crate::system::System;
use std::io::Write;
use std::marker::Brand;
use zf_lines::{Counted, RunFault};
use zf_meaning::Env;
use zf_reach::Finding;
use zf_term::Flat;

/// Searches a specification for a state in an environment, and writes a shortest way to the first that is met. It looks at
/// so many states, and at one more.
pub fn seek_flat<'p, 'e, 'g, 'a, W: Write>(
    system: &System<'_, 'p, Flat<'a>>,
    env: &'e Env<'g, 'a>,
    limit: usize,
    writer: &mut Counted<W>,
) -> Result<Finding, RunFault>
    requires unfailed { failures_of writer.old ≡ 0 }
    requires limited { 1 ≤ limit }
    requires searchable { CanSearchAll (system_of (environment_of env.now) schema_of system.now) }
    ensures ok { IfOk result (λ finding. (at text : List ℕ) × IsSearched (explored_in (system_of (environment_of env.now) schema_of system.now)) (sought_in (system_of (environment_of env.now) schema_of system.now)) (words (system_of (environment_of env.now) schema_of system.now)) (verdict (system_of (environment_of env.now) schema_of system.now)) limit (result_of finding at) text × Appends (W.contents (device_of writer.old)) (W.contents (device_of writer.new)) text) }
    ensures err { OnErr result (StopsSearch (explored_in (system_of (environment_of env.now) schema_of system.now)) (sought_in (system_of (environment_of env.now) schema_of system.now)) (words (system_of (environment_of env.now) schema_of system.now)) (verdict (system_of (environment_of env.now) schema_of system.now)) limit (W.contents (device_of writer.old)) (W.contents (device_of writer.new))) }
    ensures count { failures_of writer.new ≡ write_failures result }
    ensures unread { read_failures result ≡ 0 }
{
    let cursor = searches_of(system, env)?;
    seek_all(system, cursor, limit, writer)
}

/// The same by these searches.
fn seek_all<'p, 'e, 'g, 'a, W: Write>(
    system: &System<'_, 'p, Flat<'a>>,
    cursor: Cursor<Renewed<'p, 'e, 'g, 'a>>,
    limit: usize,
    writer: &mut Counted<W>,
) -> Result<Finding, RunFault>
    requires unfailed { failures_of writer.old ≡ 0 }
    requires limited { 1 ≤ limit }
    requires fits { Fits IsFor (system_of (environment_of cursor.state.env.now) schema_of system.now) cursor.state cursor.init cursor.operations.items cursor.part }
    ensures ok { IfOk result (λ finding. (at text : List ℕ) × IsSearched (explored_in (system_of (environment_of cursor.entry.state.env.now) schema_of system.now)) (sought_in (system_of (environment_of cursor.entry.state.env.now) schema_of system.now)) (words (system_of (environment_of cursor.entry.state.env.now) schema_of system.now)) (verdict (system_of (environment_of cursor.entry.state.env.now) schema_of system.now)) limit (result_of finding at) text × Appends (W.contents (device_of writer.old)) (W.contents (device_of writer.new)) text) }
    ensures err { OnErr result (StopsSearch (explored_in (system_of (environment_of cursor.entry.state.env.now) schema_of system.now)) (sought_in (system_of (environment_of cursor.entry.state.env.now) schema_of system.now)) (words (system_of (environment_of cursor.entry.state.env.now) schema_of system.now)) (verdict (system_of (environment_of cursor.entry.state.env.now) schema_of system.now)) limit (W.contents (device_of writer.old)) (W.contents (device_of writer.new))) }
    ensures count { failures_of writer.new ≡ write_failures result }
    ensures unread { read_failures result ≡ 0 }
{
    seek_by::<Brand, Flat<'a>, Renewed<'p, 'e, 'g, 'a>, W>(system, cursor, limit, writer)
}
