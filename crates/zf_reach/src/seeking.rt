//! The loops that search for a node, breadth first. Nothing is written before the search ends.
ghost use Rattle.std.specs.Prelude.{◌≡◌, ◌<◌, ◌≤◌, ◌+◌, ℕ, List, IfOk, OnErr, OnOk};
ghost use Rattle.indexmap.specs.IndexSet.{index_set_len};
ghost use Rattle.std.specs.Io.KnownBytes.{Appends};
ghost use Rattle.zf_graph.specs.{IsSearched};
ghost use Rattle.zf_lines.specs.{device_of, failures_of, read_failures, write_failures};
ghost use Rattle.zf_reach.specs.{AtSearch, Concludes, InSearch, KeepsNodes, LeavesSearch, result_of, StopsSearch};

use crate::finding::Finding;
use crate::machine::{Beginning, Found, Machine};
use crate::run::{begin_turn, parts_of, start_part};
use crate::search::{Search, follow, prepared};
use crate::trail::append_way;
use std::alloc::{AllocError, Global};
use std::io::Write;
use zf_lines::{Counted, RunFault, write_text};

/// Searches a machine for a node that is sought, by a search of it, among so many nodes beside the root, and writes how that ends. Nothing is written before it ends.
pub fn seek<M: Machine, W: Write>(
    alloc: Global,
    machine: &M,
    cursor: M::Cursor,
    limit: usize,
    writer: &mut Counted<W>,
) -> Result<Finding, RunFault>
    requires unfailed { failures_of writer.old ≡ 0 }
    requires limited { 1 ≤ limit }
    requires fits { M.Fits machine.now cursor }
    ensures ok { IfOk result (λ finding. (at text : List ℕ) × IsSearched (M.explored machine.now) (M.sought machine.now) (M.words machine.now) (M.verdict machine.now) limit (result_of finding at) text × Appends (W.contents (device_of writer.old)) (W.contents (device_of writer.new)) text) }
    ensures err { OnErr result (StopsSearch (M.explored machine.now) (M.sought machine.now) (M.words machine.now) (M.verdict machine.now) limit (W.contents (device_of writer.old)) (W.contents (device_of writer.new))) }
    ensures count { failures_of writer.new ≡ write_failures result }
    ensures unread { read_failures result ≡ 0 }
{
    let mut search = prepared(alloc, machine, cursor)?;
    let finding = seek_turns(machine, limit, &mut search)?;
    let text = laid_out(alloc, machine, limit, &search, finding)?;
    write_text(writer, &text)?;
    Ok(finding)
}

/// What is written of a search that is over.
fn laid_out<M: Machine>(
    alloc: Global,
    machine: &M,
    limit: usize,
    search: &Search<M::Node, M::Label, M::Cursor>,
    finding: Finding,
) -> Result<Vec<u8>, AllocError>
    requires { Concludes (M.explored machine.now) (M.sought machine.now) limit (M.words machine.now) (M.verdict machine.now) finding (M.stop search.now.run.cursor) search.now.run.met.keys search.now.trail.items search.now.run.edges }
    ensures { IfOk result (λ text. IsSearched (M.explored machine.now) (M.sought machine.now) (M.words machine.now) (M.verdict machine.now) limit (result_of finding (M.stop search.now.run.cursor)) text.items) }
{
    let mut line = Vec::new(alloc);
    machine.append_head(&mut line)?;
    match finding {
        Finding::Found => append_way(alloc, machine, search, &mut line)?,
        Finding::Missing | Finding::OpenEnded | Finding::Untold => {}
    }
    let nodes = search.run.met.len().saturating_sub(1);
    machine.append_verdict(
        &mut line,
        finding,
        &search.run.cursor,
        nodes,
        search.run.edges,
    )?;
    Ok(line)
}

/// Gives the nodes that are met their turns, each of which may bring new ones.
fn seek_turns<M: Machine>(
    machine: &M,
    limit: usize,
    search: &mut Search<M::Node, M::Label, M::Cursor>,
) -> Result<Finding, AllocError>
    requires before { AtSearch (M.explored machine.now) (M.sought machine.now) limit search.old.run.met.keys search.old.trail.items search.old.run.place search.old.run.edges }
    requires fits { M.Fits machine.now search.old.run.cursor }
    ensures { IfOk result (λ finding. Concludes (M.explored machine.now) (M.sought machine.now) limit (M.words machine.now) (M.verdict machine.now) finding (M.stop search.new.run.cursor) search.new.run.met.keys search.new.trail.items search.new.run.edges) }
{
    'turns: while search.run.place < search.run.met.len() {
        match seek_turn(machine, limit, search)? {
            Some(finding) => return Ok(finding),
            None => search.run.place += 1,
        }
    }
    Ok(Finding::Missing)
}

/// The turn of the next node. None where it is whole.
fn seek_turn<M: Machine>(
    machine: &M,
    limit: usize,
    search: &mut Search<M::Node, M::Label, M::Cursor>,
) -> Result<Option<Finding>, AllocError>
    requires before { AtSearch (M.explored machine.now) (M.sought machine.now) limit search.old.run.met.keys search.old.trail.items search.old.run.place search.old.run.edges }
    requires next { search.old.run.place < index_set_len search.old.run.met }
    requires fits { M.Fits machine.now search.old.run.cursor }
    ensures left { IfOk result (λ left. LeavesSearch (M.explored machine.now) (M.sought machine.now) limit (M.words machine.now) (M.verdict machine.now) left (AtSearch (M.explored machine.now) (M.sought machine.now) limit search.new.run.met.keys search.new.trail.items (search.new.run.place + 1) search.new.run.edges) (M.stop search.new.run.cursor) search.new.run.met.keys search.new.trail.items search.new.run.edges) }
    ensures place { OnOk result (search.new.run.place ≡ search.old.run.place) }
    ensures fits { OnOk result (M.Fits machine.now search.new.run.cursor) }
{
    match begin_turn(machine, &mut search.run)? {
        Beginning::Out => Ok(Some(Finding::Untold)),
        Beginning::Regular | Beginning::Stray => seek_parts(machine, limit, search),
    }
}

/// Passes the edges of a node whose turn is begun. None where there are no more.
fn seek_parts<M: Machine>(
    machine: &M,
    limit: usize,
    search: &mut Search<M::Node, M::Label, M::Cursor>,
) -> Result<Option<Finding>, AllocError>
    requires begun { InSearch (M.explored machine.now) (M.sought machine.now) limit (λ of now. M.HasPassed machine.now of 0 now) search.old.run.met.keys search.old.trail.items search.old.run.place search.old.run.edges }
    requires fits { M.Fits machine.now search.old.run.cursor }
    ensures left { IfOk result (λ left. LeavesSearch (M.explored machine.now) (M.sought machine.now) limit (M.words machine.now) (M.verdict machine.now) left (AtSearch (M.explored machine.now) (M.sought machine.now) limit search.new.run.met.keys search.new.trail.items (search.new.run.place + 1) search.new.run.edges) (M.stop search.new.run.cursor) search.new.run.met.keys search.new.trail.items search.new.run.edges) }
    ensures place { OnOk result (search.new.run.place ≡ search.old.run.place) }
    ensures fits { OnOk result (M.Fits machine.now search.new.run.cursor) }
{
    let count = parts_of(machine, &search.run);
    for which in 0..count {
        start_part(machine, &mut search.run, which)?;
        if let Some(finding) = seek_part(machine, limit, search)? {
            return Ok(Some(finding));
        }
    }
    Ok(None)
}

/// Passes the edges of a part whose search is begun. None where there are no more.
fn seek_part<M: Machine>(
    machine: &M,
    limit: usize,
    search: &mut Search<M::Node, M::Label, M::Cursor>,
) -> Result<Option<Finding>, AllocError>
    requires begun { InSearch (M.explored machine.now) (M.sought machine.now) limit (M.Stands machine.now search.old.run.cursor) search.old.run.met.keys search.old.trail.items search.old.run.place search.old.run.edges }
    requires fits { M.Fits machine.now search.old.run.cursor }
    ensures left { IfOk result (λ left. LeavesSearch (M.explored machine.now) (M.sought machine.now) limit (M.words machine.now) (M.verdict machine.now) left (InSearch (M.explored machine.now) (M.sought machine.now) limit (λ of now. M.HasPassed machine.now of (M.part search.old.run.cursor + 1) now) search.new.run.met.keys search.new.trail.items search.new.run.place search.new.run.edges) (M.stop search.new.run.cursor) search.new.run.met.keys search.new.trail.items search.new.run.edges) }
    ensures place { OnOk result (search.new.run.place ≡ search.old.run.place) }
    ensures keeps { OnOk result (KeepsNodes search.old.run.met.keys search.new.run.met.keys) }
    ensures fits { OnOk result (M.Fits machine.now search.new.run.cursor) }
{
    'edges: loop {
        match machine.advance(&mut search.run.cursor)? {
            Found::Edge(label, to) => {
                if let Some(finding) = follow(machine, limit, search, label, to)? {
                    return Ok(Some(finding));
                }
            }
            Found::Over => return Ok(None),
            Found::Out => return Ok(Some(Finding::Untold)),
        }
    }
}
