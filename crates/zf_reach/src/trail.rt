//! The way to a node that is found.
ghost use Rattle.std.specs.Prelude.{◌≡◌, ◌+◌, ◌<◌, ◌≤◌, length, IfOk, OnOk};
ghost use Rattle.zf_reach.specs.{IsChain, IsEarlier, SaysStep, SaysWay};

use crate::machine::Machine;
use crate::search::Search;
use std::alloc::{AllocError, Global};

/// How a node was met: in the turn of the node of this number, along an edge with this label.
#[derive(Drop)]
pub struct Arrival<L: Drop> {
    pub from: usize,
    pub label: L,
}

/// The numbers of the nodes on the way to the last that is met, from its end, without that of the root.
fn way_back<L: Drop>(alloc: Global, trail: &[Arrival<L>]) -> Result<Vec<usize>, AllocError>
    requires { IsEarlier trail.now }
    ensures { IfOk result (λ way. IsChain trail.now (length trail.now) way.items 0) }
{
    let mut way = Vec::new(alloc);
    let mut at = trail.len();
    'back: while at > 0 {
        way.push(at)?;
        at = trail[at - 1].from;
    }
    Ok(way)
}

/// Appends the lines of the way to the node that is met last.
pub fn append_way<M: Machine>(
    alloc: Global,
    machine: &M,
    search: &Search<M::Node, M::Label, M::Cursor>,
    line: &mut Vec<u8>,
) -> Result<(), AllocError>
    requires earlier { IsEarlier search.now.trail.items }
    requires each { length search.now.run.met.keys ≡ length search.now.trail.items + 1 }
    ensures { OnOk result (SaysWay (M.explored machine.now) (M.words machine.now) search.now.run.met.keys search.now.trail.items (length search.now.trail.items) line.old.items line.new.items) }
{
    let mut way = way_back(alloc, &search.trail)?;
    'steps: while let Some(number) = way.pop() {
        append_step(machine, search, number, line)?;
    }
    Ok(())
}

/// Appends the line of the node of this number, in the turn in which it was met, and that of the edge to it.
fn append_step<M: Machine>(
    machine: &M,
    search: &Search<M::Node, M::Label, M::Cursor>,
    number: usize,
    line: &mut Vec<u8>,
) -> Result<(), AllocError>
    requires some { 0 < number }
    requires kept { number ≤ length search.now.trail.items }
    requires met { number < length search.now.run.met.keys }
    ensures { OnOk result (SaysStep (M.words machine.now) search.now.run.met.keys search.now.trail.items number line.old.items line.new.items) }
{
    let arrival = &search.trail[number - 1];
    match search.run.met.get_index(number) {
        Some(of) => machine.append_node(line, arrival.from, number, of)?,
        None => unreachable!(),
    }
    machine.append_edge(line, arrival.from, &arrival.label, number)
}
