//! The loops that explore, and write what they meet.
ghost use Rattle.std.specs.Prelude.{◌≡◌, ◌<◌, ◌≤◌, ◌+◌, ◌∷◌, [], ℕ, List, Option, IfOk, MatchBool, OnErr, OnOk};
ghost use Rattle.std.specs.Io.KnownBytes.{Appends};
ghost use Rattle.indexmap.specs.IndexSet.{index_set_len};
ghost use Rattle.zf_graph.specs.{broken, IsExplored};
ghost use Rattle.zf_lines.specs.{AppendsFront, device_of, failures_of, read_failures, write_failures};
ghost use Rattle.zf_reach.specs.{AtTurn, Closes, ending_of, InParts, KeepsNodes, LeavesTurn, StopsEarly};

use crate::ending::Ending;
use crate::machine::{Beginning, Found, Machine};
use crate::run::{Run, append_last, begin_turn, begun, parts_of, pass, start_part};
use std::alloc::Global;
use std::io::Write;
use zf_lines::{Counted, RunFault, write_text};

/// Writes the exploration of a machine by a search of it, up to so many nodes beside the root. Each part is written before anything further is searched for.
pub fn explore<M: Machine, W: Write>(
    alloc: Global,
    machine: &M,
    cursor: M::Cursor,
    limit: usize,
    writer: &mut Counted<W>,
) -> Result<Ending, RunFault>
    requires unfailed { failures_of writer.old ≡ 0 }
    requires limited { 1 ≤ limit }
    requires fits { M.Fits machine.now cursor }
    ensures ok { IfOk result (λ ending. (at text : List ℕ) × IsExplored (M.explored machine.now) (M.words machine.now) limit (ending_of ending at) text × Appends (W.contents (device_of writer.old)) (W.contents (device_of writer.new)) text) }
    ensures err { OnErr result (StopsEarly (M.explored machine.now) (M.words machine.now) limit (W.contents (device_of writer.old)) (W.contents (device_of writer.new))) }
    ensures count { failures_of writer.new ≡ write_failures result }
    ensures unread { read_failures result ≡ 0 }
{
    let mut run = begun(alloc, machine, cursor)?;
    let ending = write_whole(machine, limit, &mut run, writer)?;
    append_last(machine, &mut run, ending)?;
    write_text(writer, &run.line)?;
    Ok(ending)
}

/// Writes what is said before all else, and the turns of the nodes.
fn write_whole<M: Machine, W: Write>(
    machine: &M,
    limit: usize,
    run: &mut Run<M::Node, M::Cursor>,
    writer: &mut Counted<W>,
) -> Result<Ending, RunFault>
    ghost origin: { Option (List ℕ) }
    requires unfailed { failures_of writer.old ≡ 0 }
    requires limited { 1 ≤ limit }
    requires unwritten { origin ≡ W.contents (device_of writer.old) }
    requires first { (run.old.met.keys ≡ (M.explored machine.now).root ∷ []) × (run.old.place ≡ 0) × (run.old.edges ≡ 0) }
    requires fits { M.Fits machine.now run.old.cursor }
    ensures ok { IfOk result (λ ending. Closes (M.explored machine.now) (M.words machine.now) limit (ending_of ending (M.stop run.new.cursor)) origin (W.contents (device_of writer.new)) run.new.met.keys run.new.edges) }
    ensures err { OnErr result (StopsEarly (M.explored machine.now) (M.words machine.now) limit origin (W.contents (device_of writer.new))) }
    ensures count { failures_of writer.new ≡ write_failures result }
    ensures unread { read_failures result ≡ 0 }
{
    write_head(machine, run, writer)?;
    write_turns(machine, limit, run, writer)
}

/// Writes the turns of the nodes, each of which may bring new ones.
fn write_turns<M: Machine, W: Write>(
    machine: &M,
    limit: usize,
    run: &mut Run<M::Node, M::Cursor>,
    writer: &mut Counted<W>,
) -> Result<Ending, RunFault>
    ghost origin: { Option (List ℕ) }
    requires unfailed { failures_of writer.old ≡ 0 }
    requires before { AtTurn (M.explored machine.now) (M.words machine.now) limit origin (W.contents (device_of writer.old)) run.old.met.keys run.old.place run.old.edges }
    requires fits { M.Fits machine.now run.old.cursor }
    ensures ok { IfOk result (λ ending. Closes (M.explored machine.now) (M.words machine.now) limit (ending_of ending (M.stop run.new.cursor)) origin (W.contents (device_of writer.new)) run.new.met.keys run.new.edges) }
    ensures err { OnErr result (StopsEarly (M.explored machine.now) (M.words machine.now) limit origin (W.contents (device_of writer.new))) }
    ensures count { failures_of writer.new ≡ write_failures result }
    ensures unread { read_failures result ≡ 0 }
{
    'turns: while run.place < run.met.len() {
        match write_turn(machine, limit, run, writer)? {
            Some(ending) => return Ok(ending),
            None => run.place += 1,
        }
    }
    Ok(Ending::Ended)
}

/// Writes the turn of the next node. None where it is whole.
fn write_turn<M: Machine, W: Write>(
    machine: &M,
    limit: usize,
    run: &mut Run<M::Node, M::Cursor>,
    writer: &mut Counted<W>,
) -> Result<Option<Ending>, RunFault>
    ghost origin: { Option (List ℕ) }
    requires unfailed { failures_of writer.old ≡ 0 }
    requires before { AtTurn (M.explored machine.now) (M.words machine.now) limit origin (W.contents (device_of writer.old)) run.old.met.keys run.old.place run.old.edges }
    requires next { run.old.place < index_set_len run.old.met }
    requires fits { M.Fits machine.now run.old.cursor }
    ensures ok { IfOk result (λ left. LeavesTurn (M.explored machine.now) (M.words machine.now) limit left (AtTurn (M.explored machine.now) (M.words machine.now) limit origin (W.contents (device_of writer.new)) run.new.met.keys (run.new.place + 1) run.new.edges) (M.stop run.new.cursor) origin (W.contents (device_of writer.new)) run.new.met.keys run.new.edges) }
    ensures err { OnErr result (StopsEarly (M.explored machine.now) (M.words machine.now) limit origin (W.contents (device_of writer.new))) }
    ensures place { OnOk result (run.new.place ≡ run.old.place) }
    ensures fits { OnOk result (M.Fits machine.now run.new.cursor) }
    ensures count { failures_of writer.new ≡ write_failures result }
    ensures unread { read_failures result ≡ 0 }
{
    if !open_turn(machine, limit, run, writer)? {
        return Ok(Some(Ending::Broken));
    }
    if let Some(ending) = write_parts(machine, limit, run, writer)? {
        return Ok(Some(ending));
    }
    close_turn(machine, limit, run, writer)?;
    Ok(None)
}

/// Begins the turn of the next node, and writes it where that is a stray. Whether that can be decided.
fn open_turn<M: Machine, W: Write>(
    machine: &M,
    limit: usize,
    run: &mut Run<M::Node, M::Cursor>,
    writer: &mut Counted<W>,
) -> Result<bool, RunFault>
    ghost origin: { Option (List ℕ) }
    requires unfailed { failures_of writer.old ≡ 0 }
    requires before { AtTurn (M.explored machine.now) (M.words machine.now) limit origin (W.contents (device_of writer.old)) run.old.met.keys run.old.place run.old.edges }
    requires next { run.old.place < index_set_len run.old.met }
    requires fits { M.Fits machine.now run.old.cursor }
    ensures ok { IfOk result (λ goes_on. MatchBool goes_on (InParts (M.explored machine.now) (M.words machine.now) limit (λ of now. M.HasPassed machine.now of 0 now) origin (W.contents (device_of writer.new)) run.new.met.keys run.new.place run.new.edges run.new.stuck) (Closes (M.explored machine.now) (M.words machine.now) limit (broken (M.stop run.new.cursor)) origin (W.contents (device_of writer.new)) run.new.met.keys run.new.edges)) }
    ensures err { OnErr result (StopsEarly (M.explored machine.now) (M.words machine.now) limit origin (W.contents (device_of writer.new))) }
    ensures place { OnOk result (run.new.place ≡ run.old.place) }
    ensures fits { OnOk result (M.Fits machine.now run.new.cursor) }
    ensures count { failures_of writer.new ≡ write_failures result }
    ensures unread { read_failures result ≡ 0 }
{
    match begin_turn(machine, run)? {
        Beginning::Out => Ok(false),
        Beginning::Regular => Ok(true),
        Beginning::Stray => {
            write_stray(machine, run, writer)?;
            Ok(true)
        }
    }
}

/// Ends a turn that is whole, and writes it where the node has no edges.
fn close_turn<M: Machine, W: Write>(
    machine: &M,
    limit: usize,
    run: &mut Run<M::Node, M::Cursor>,
    writer: &mut Counted<W>,
) -> Result<(), RunFault>
    ghost origin: { Option (List ℕ) }
    requires unfailed { failures_of writer.old ≡ 0 }
    requires over { InParts (M.explored machine.now) (M.words machine.now) limit (M.explored machine.now).HasTurn origin (W.contents (device_of writer.old)) run.old.met.keys run.old.place run.old.edges run.old.stuck }
    requires fits { M.Fits machine.now run.old.cursor }
    ensures ok { OnOk result (AtTurn (M.explored machine.now) (M.words machine.now) limit origin (W.contents (device_of writer.new)) run.new.met.keys (run.new.place + 1) run.new.edges) }
    ensures err { OnErr result (StopsEarly (M.explored machine.now) (M.words machine.now) limit origin (W.contents (device_of writer.new))) }
    ensures place { OnOk result (run.new.place ≡ run.old.place) }
    ensures fits { OnOk result (M.Fits machine.now run.new.cursor) }
    ensures count { failures_of writer.new ≡ write_failures result }
    ensures unread { read_failures result ≡ 0 }
{
    if run.stuck {
        write_stuck(machine, run, writer)?;
    }
    Ok(())
}

/// Writes the edges of a node whose turn is begun. None where there are no more.
fn write_parts<M: Machine, W: Write>(
    machine: &M,
    limit: usize,
    run: &mut Run<M::Node, M::Cursor>,
    writer: &mut Counted<W>,
) -> Result<Option<Ending>, RunFault>
    ghost origin: { Option (List ℕ) }
    requires unfailed { failures_of writer.old ≡ 0 }
    requires begun { InParts (M.explored machine.now) (M.words machine.now) limit (λ of now. M.HasPassed machine.now of 0 now) origin (W.contents (device_of writer.old)) run.old.met.keys run.old.place run.old.edges run.old.stuck }
    requires fits { M.Fits machine.now run.old.cursor }
    ensures ok { IfOk result (λ left. LeavesTurn (M.explored machine.now) (M.words machine.now) limit left (InParts (M.explored machine.now) (M.words machine.now) limit (M.explored machine.now).HasTurn origin (W.contents (device_of writer.new)) run.new.met.keys run.new.place run.new.edges run.new.stuck) (M.stop run.new.cursor) origin (W.contents (device_of writer.new)) run.new.met.keys run.new.edges) }
    ensures err { OnErr result (StopsEarly (M.explored machine.now) (M.words machine.now) limit origin (W.contents (device_of writer.new))) }
    ensures place { OnOk result (run.new.place ≡ run.old.place) }
    ensures fits { OnOk result (M.Fits machine.now run.new.cursor) }
    ensures count { failures_of writer.new ≡ write_failures result }
    ensures unread { read_failures result ≡ 0 }
{
    let count = parts_of(machine, run);
    for which in 0..count {
        start_part(machine, run, which)?;
        if let Some(ending) = write_part(machine, limit, run, writer)? {
            return Ok(Some(ending));
        }
    }
    Ok(None)
}

/// Writes the edges of a part whose search is begun. None where there are no more.
fn write_part<M: Machine, W: Write>(
    machine: &M,
    limit: usize,
    run: &mut Run<M::Node, M::Cursor>,
    writer: &mut Counted<W>,
) -> Result<Option<Ending>, RunFault>
    ghost origin: { Option (List ℕ) }
    requires unfailed { failures_of writer.old ≡ 0 }
    requires begun { InParts (M.explored machine.now) (M.words machine.now) limit (M.Stands machine.now run.old.cursor) origin (W.contents (device_of writer.old)) run.old.met.keys run.old.place run.old.edges run.old.stuck }
    requires fits { M.Fits machine.now run.old.cursor }
    ensures ok { IfOk result (λ left. LeavesTurn (M.explored machine.now) (M.words machine.now) limit left (InParts (M.explored machine.now) (M.words machine.now) limit (λ of now. M.HasPassed machine.now of (M.part run.old.cursor + 1) now) origin (W.contents (device_of writer.new)) run.new.met.keys run.new.place run.new.edges run.new.stuck) (M.stop run.new.cursor) origin (W.contents (device_of writer.new)) run.new.met.keys run.new.edges) }
    ensures err { OnErr result (StopsEarly (M.explored machine.now) (M.words machine.now) limit origin (W.contents (device_of writer.new))) }
    ensures place { OnOk result (run.new.place ≡ run.old.place) }
    ensures keeps { OnOk result (KeepsNodes run.old.met.keys run.new.met.keys) }
    ensures fits { OnOk result (M.Fits machine.now run.new.cursor) }
    ensures count { failures_of writer.new ≡ write_failures result }
    ensures unread { read_failures result ≡ 0 }
{
    'edges: loop {
        match machine.advance(&mut run.cursor)? {
            Found::Edge(label, to) => {
                let full = pass(machine, limit, run, &label, to)?;
                write_text(writer, &run.line)?;
                if full {
                    return Ok(Some(Ending::Paused));
                }
            }
            Found::Over => return Ok(None),
            Found::Out => return Ok(Some(Ending::Broken)),
        }
    }
}

/// Writes what is said before all else.
fn write_head<M: Machine, W: Write>(
    machine: &M,
    run: &mut Run<M::Node, M::Cursor>,
    writer: &mut Counted<W>,
) -> Result<(), RunFault>
    requires unfailed { failures_of writer.old ≡ 0 }
    ensures ok { OnOk result (Appends (W.contents (device_of writer.old)) (W.contents (device_of writer.new)) (M.words machine.now).head) }
    ensures err { OnErr result (AppendsFront (W.contents (device_of writer.old)) (W.contents (device_of writer.new)) (M.words machine.now).head) }
    ensures same { (run.new.met ≡ run.old.met) × (run.new.cursor ≡ run.old.cursor) × (run.new.place ≡ run.old.place) × (run.new.edges ≡ run.old.edges) × (run.new.stuck ≡ run.old.stuck) }
    ensures count { failures_of writer.new ≡ write_failures result }
    ensures unread { read_failures result ≡ 0 }
{
    run.line.clear();
    machine.append_head(&mut run.line)?;
    write_text(writer, &run.line)
}

/// Writes that the node whose turn it is is a stray.
fn write_stray<M: Machine, W: Write>(
    machine: &M,
    run: &mut Run<M::Node, M::Cursor>,
    writer: &mut Counted<W>,
) -> Result<(), RunFault>
    requires unfailed { failures_of writer.old ≡ 0 }
    ensures ok { OnOk result (Appends (W.contents (device_of writer.old)) (W.contents (device_of writer.new)) ((M.words machine.now).stray run.old.place)) }
    ensures err { OnErr result (AppendsFront (W.contents (device_of writer.old)) (W.contents (device_of writer.new)) ((M.words machine.now).stray run.old.place)) }
    ensures same { (run.new.met ≡ run.old.met) × (run.new.cursor ≡ run.old.cursor) × (run.new.place ≡ run.old.place) × (run.new.edges ≡ run.old.edges) × (run.new.stuck ≡ run.old.stuck) }
    ensures count { failures_of writer.new ≡ write_failures result }
    ensures unread { read_failures result ≡ 0 }
{
    run.line.clear();
    machine.append_stray(&mut run.line, run.place)?;
    write_text(writer, &run.line)
}

/// Writes that the node whose turn it was has no edges.
fn write_stuck<M: Machine, W: Write>(
    machine: &M,
    run: &mut Run<M::Node, M::Cursor>,
    writer: &mut Counted<W>,
) -> Result<(), RunFault>
    requires unfailed { failures_of writer.old ≡ 0 }
    ensures ok { OnOk result (Appends (W.contents (device_of writer.old)) (W.contents (device_of writer.new)) ((M.words machine.now).stuck run.old.place)) }
    ensures err { OnErr result (AppendsFront (W.contents (device_of writer.old)) (W.contents (device_of writer.new)) ((M.words machine.now).stuck run.old.place)) }
    ensures same { (run.new.met ≡ run.old.met) × (run.new.cursor ≡ run.old.cursor) × (run.new.place ≡ run.old.place) × (run.new.edges ≡ run.old.edges) × (run.new.stuck ≡ run.old.stuck) }
    ensures count { failures_of writer.new ≡ write_failures result }
    ensures unread { read_failures result ≡ 0 }
{
    run.line.clear();
    machine.append_stuck(&mut run.line, run.place)?;
    write_text(writer, &run.line)
}
