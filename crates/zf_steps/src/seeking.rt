//! The text of a search for a state of a specification.
ghost use Rattle.std.specs.Prelude.{◌≡◌, ◌≤◌, ℕ, List, IfOk, OnErr};
ghost use Rattle.zf_steps.specs.Prelude.{Appends, IsSearched, device_of, failures_of, read_failures, write_failures, result_of, StopsSearch};
ghost use Rattle.zf_steps.specs.{explored_in, Fits, IsForIn, sought_in, system_of, verdict, words};

use crate::cursor::Cursor;
use crate::finder::Finder;
use crate::given::{Schematic, Surrounding};
use crate::machine::Explorer;
use crate::system::System;
use std::io::Write;
use std::marker::PhantomData;
use zf_lines::{Counted, RunFault};
use zf_reach::{Finding, seek};

/// Searches a specification for a state, by these searches, and writes a shortest way to the first that is met. It looks at
/// so many states, and at one more.
pub fn seek_by<E: Surrounding + Drop, F: Schematic + Drop, S: Finder + Drop, W: Write>(
    system: &System<'_, '_, F>,
    cursor: Cursor<S>,
    limit: usize,
    writer: &mut Counted<W>,
) -> Result<Finding, RunFault>
    requires unfailed { failures_of writer.old ≡ 0 }
    requires limited { 1 ≤ limit }
    requires fits { Fits (IsForIn S.place) (system_of E.environment F.schema system.now) cursor.state cursor.init cursor.operations.items cursor.part }
    ensures ok { IfOk result (λ finding. (at text : List ℕ) × IsSearched (explored_in (system_of E.environment F.schema system.now)) (sought_in (system_of E.environment F.schema system.now)) (words (system_of E.environment F.schema system.now)) (verdict (system_of E.environment F.schema system.now)) limit (result_of finding at) text × Appends (W.contents (device_of writer.old)) (W.contents (device_of writer.new)) text) }
    ensures err { OnErr result (StopsSearch (explored_in (system_of E.environment F.schema system.now)) (sought_in (system_of E.environment F.schema system.now)) (words (system_of E.environment F.schema system.now)) (verdict (system_of E.environment F.schema system.now)) limit (W.contents (device_of writer.old)) (W.contents (device_of writer.new))) }
    ensures count { failures_of writer.new ≡ write_failures result }
    ensures unread { read_failures result ≡ 0 }
{
    let explorer = Explorer::<E, F, S> {
        system,
        surrounding: PhantomData,
        searches: PhantomData,
    };
    seek(system.alloc, &explorer, cursor, limit, writer)
}
