//! What flat schemas can reach in an environment.
ghost use Rattle.std.specs.Prelude.{◌≡◌, ◌≤◌, ℕ, List, IfOk, OnErr};
ghost use Rattle.zf_steps.specs.Prelude.{Appends, IsExplored, device_of, failures_of, read_failures, write_failures, environment_of, ending_of, StopsEarly, schema_of};
ghost use Rattle.zf_steps.specs.{CanSearchAll, explored_in, Fits, IsFor, system_of, words};

use crate::cursor::Cursor;
use crate::exploring::explore_by;
use crate::renewed::{Renewed, searches_of};
use crate::system::System;
use std::io::Write;
use std::marker::Brand;
use zf_lines::{Counted, RunFault};
use zf_meaning::Env;
use zf_reach::Ending;
use zf_term::Flat;

/// Writes the exploration of a specification in an environment, up to so many states. Each line is written before anything
/// further is searched for.
pub fn explore_flat<'p, 'e, 'g, 'a, W: Write>(
    system: &System<'_, 'p, Flat<'a>>,
    env: &'e Env<'g, 'a>,
    limit: usize,
    writer: &mut Counted<W>,
) -> Result<Ending, RunFault>
    requires unfailed { failures_of writer.old ≡ 0 }
    requires limited { 1 ≤ limit }
    requires searchable { CanSearchAll (system_of (environment_of env.now) schema_of system.now) }
    ensures ok { IfOk result (λ ending. (at text : List ℕ) × IsExplored (explored_in (system_of (environment_of env.now) schema_of system.now)) (words (system_of (environment_of env.now) schema_of system.now)) limit (ending_of ending at) text × Appends (W.contents (device_of writer.old)) (W.contents (device_of writer.new)) text) }
    ensures err { OnErr result (StopsEarly (explored_in (system_of (environment_of env.now) schema_of system.now)) (words (system_of (environment_of env.now) schema_of system.now)) limit (W.contents (device_of writer.old)) (W.contents (device_of writer.new))) }
    ensures count { failures_of writer.new ≡ write_failures result }
    ensures unread { read_failures result ≡ 0 }
{
    let cursor = searches_of(system, env)?;
    explore_all(system, cursor, limit, writer)
}

/// The same by these searches.
fn explore_all<'p, 'e, 'g, 'a, W: Write>(
    system: &System<'_, 'p, Flat<'a>>,
    cursor: Cursor<Renewed<'p, 'e, 'g, 'a>>,
    limit: usize,
    writer: &mut Counted<W>,
) -> Result<Ending, RunFault>
    requires unfailed { failures_of writer.old ≡ 0 }
    requires limited { 1 ≤ limit }
    requires fits { Fits IsFor (system_of (environment_of cursor.state.env.now) schema_of system.now) cursor.state cursor.init cursor.operations.items cursor.part }
    ensures ok { IfOk result (λ ending. (at text : List ℕ) × IsExplored (explored_in (system_of (environment_of cursor.entry.state.env.now) schema_of system.now)) (words (system_of (environment_of cursor.entry.state.env.now) schema_of system.now)) limit (ending_of ending at) text × Appends (W.contents (device_of writer.old)) (W.contents (device_of writer.new)) text) }
    ensures err { OnErr result (StopsEarly (explored_in (system_of (environment_of cursor.entry.state.env.now) schema_of system.now)) (words (system_of (environment_of cursor.entry.state.env.now) schema_of system.now)) limit (W.contents (device_of writer.old)) (W.contents (device_of writer.new))) }
    ensures count { failures_of writer.new ≡ write_failures result }
    ensures unread { read_failures result ≡ 0 }
{
    explore_by::<Brand, Flat<'a>, Renewed<'p, 'e, 'g, 'a>, W>(system, cursor, limit, writer)
}
