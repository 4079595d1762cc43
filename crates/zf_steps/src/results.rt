//! The lines at the end of a search.
ghost use Rattle.std.specs.Prelude.{◌≡◌, ◌-◌, ◌^◌, ◌++◌, ℕ, OnOk, min};
ghost use Rattle.zf_steps.specs.Prelude.{result_of};
ghost use Rattle.zf_steps.specs.{count_line, result_line};

use crate::lines::{append_counts, append_ending};
use std::alloc::AllocError;
use zf_reach::{Ending, Finding};

/// Appends how a search ended, and the counts.
pub fn append_verdict_lines(
    line: &mut Vec<u8>,
    finding: Finding,
    stop: &[u8],
    nodes: usize,
    edges: u64,
) -> Result<(), AllocError>
    ensures { OnOk result ((n : ℕ) → edges ≡ min n (2 ^ 64 - 1) → line.new.items ≡ line.old.items ++ result_line (result_of finding stop.now) ++ count_line nodes n) }
{
    append_result(line, finding, stop)?;
    append_counts(line, nodes, edges)
}

/// Appends `found`, `not found`, `more`, or what can't be decided.
pub fn append_result(line: &mut Vec<u8>, finding: Finding, stop: &[u8]) -> Result<(), AllocError>
    ensures { OnOk result (line.new.items ≡ line.old.items ++ result_line (result_of finding stop.now)) }
{
    match finding {
        Finding::Found => line.extend_from_slice(b"found\n"),
        Finding::Missing => line.extend_from_slice(b"not found\n"),
        Finding::OpenEnded => line.extend_from_slice(b"more\n"),
        Finding::Untold => append_ending(line, Ending::Broken, stop),
    }
}
