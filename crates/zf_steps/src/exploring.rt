//! The text of what a specification can reach.
ghost use Rattle.std.specs.Prelude.{◌≡◌, ◌≤◌, ℕ, List, IfOk, OnErr};
ghost use Rattle.zf_steps.specs.Prelude.{Appends, IsExplored, device_of, failures_of, read_failures, write_failures, ending_of, StopsEarly};
ghost use Rattle.zf_steps.specs.{explored_in, Fits, IsForIn, system_of, words};

use crate::cursor::Cursor;
use crate::finder::Finder;
use crate::given::{Schematic, Surrounding};
use crate::machine::Explorer;
use crate::system::System;
use std::io::Write;
use std::marker::PhantomData;
use zf_lines::{Counted, RunFault};
use zf_reach::{Ending, explore};

/// Writes the exploration of a specification by these searches, up to so many states. Each line is written before anything
/// further is searched for.
pub fn explore_by<E: Surrounding + Drop, F: Schematic + Drop, S: Finder + Drop, W: Write>(
    system: &System<'_, '_, F>,
    cursor: Cursor<S>,
    limit: usize,
    writer: &mut Counted<W>,
) -> Result<Ending, RunFault>
    requires unfailed { failures_of writer.old ≡ 0 }
    requires limited { 1 ≤ limit }
    requires fits { Fits (IsForIn S.place) (system_of E.environment F.schema system.now) cursor.state cursor.init cursor.operations.items cursor.part }
    ensures ok { IfOk result (λ ending. (at text : List ℕ) × IsExplored (explored_in (system_of E.environment F.schema system.now)) (words (system_of E.environment F.schema system.now)) limit (ending_of ending at) text × Appends (W.contents (device_of writer.old)) (W.contents (device_of writer.new)) text) }
    ensures err { OnErr result (StopsEarly (explored_in (system_of E.environment F.schema system.now)) (words (system_of E.environment F.schema system.now)) limit (W.contents (device_of writer.old)) (W.contents (device_of writer.new))) }
    ensures count { failures_of writer.new ≡ write_failures result }
    ensures unread { read_failures result ≡ 0 }
{
    let explorer = Explorer::<E, F, S> {
        system,
        surrounding: PhantomData,
        searches: PhantomData,
    };
    explore(system.alloc, &explorer, cursor, limit, writer)
}
