//! Where a search for a node stands, and what an edge brings to it.
ghost use Rattle.std.specs.Prelude.{◌≡◌, ◌<◌, ◌∷◌, [], IfOk, OnOk, slice_get, Some};
ghost use Rattle.indexmap.specs.IndexSet.{index_set_len};
ghost use Rattle.zf_graph.specs.{Turn};
ghost use Rattle.zf_reach.specs.{Brings, counted, IsSeenAs};

use crate::finding::Finding;
use crate::machine::Machine;
use crate::run::{Run, begun, count};
use crate::sight::Sight;
use crate::trail::Arrival;
use std::alloc::{AllocError, Global};
use std::hash::Hash;

/// What is met, and how each node but for the root was met.
#[derive(Drop)]
pub struct Search<N: Eq + Hash, L: Drop, C> {
    pub run: Run<N, C>,
    pub trail: Vec<Arrival<L>>,
}

/// Before the turn of the root.
pub fn prepared<M: Machine>(
    alloc: Global,
    machine: &M,
    cursor: M::Cursor,
) -> Result<Search<M::Node, M::Label, M::Cursor>, AllocError>
    ensures cursor { IfOk result (λ s. s.run.cursor ≡ cursor) }
    ensures met { IfOk result (λ s. s.run.met.keys ≡ (M.explored machine.now).root ∷ []) }
    ensures none { IfOk result (λ s. (s.run.place ≡ 0) × (s.run.edges ≡ 0) × (s.trail.items ≡ [])) }
{
    let run = begun(alloc, machine, cursor)?;
    Ok(Search {
        run,
        trail: Vec::new(alloc),
    })
}

/// Passes an edge, and looks at the node that it leads to, where that is new. How the search ends there, if it does.
pub fn follow<M: Machine>(
    machine: &M,
    limit: usize,
    search: &mut Search<M::Node, M::Label, M::Cursor>,
    label: M::Label,
    to: M::Node,
) -> Result<Option<Finding>, AllocError>
    requires { M.Fits machine.now search.old.run.cursor }
    ensures brings { IfOk result (λ left. Brings (M.explored machine.now) (M.sought machine.now) limit (M.stop search.new.run.cursor) left search.old.run.place search.old.run.met.keys search.new.run.met.keys search.old.trail.items search.new.trail.items label to) }
    ensures edges { OnOk result (search.new.run.edges ≡ counted search.old.run.place search.old.run.edges) }
    ensures fits { OnOk result (M.Fits machine.now search.new.run.cursor) }
    ensures stands { OnOk result ((node : M.Node) (now : Turn M.Node M.Label) → M.Stands machine.now search.old.run.cursor node now → M.Stands machine.now search.new.run.cursor node now) }
    ensures same { OnOk result ((search.new.run.place ≡ search.old.run.place) × (M.part search.new.run.cursor ≡ M.part search.old.run.cursor) × (M.ahead search.new.run.cursor ≡ M.ahead search.old.run.cursor)) }
{
    let (number, is_new) = search.run.met.insert_full(to)?;
    count(&mut search.run);
    if !is_new {
        return Ok(None);
    }
    search.trail.push(Arrival {
        from: search.run.place,
        label,
    })?;
    match look_at(machine, &mut search.run, number)? {
        Sight::Sought => Ok(Some(Finding::Found)),
        Sight::Untold => Ok(Some(Finding::Untold)),
        Sight::Other if number == limit => Ok(Some(Finding::OpenEnded)),
        Sight::Other => Ok(None),
    }
}

/// Looks at the node of this number.
fn look_at<M: Machine>(
    machine: &M,
    run: &mut Run<M::Node, M::Cursor>,
    number: usize,
) -> Result<Sight, AllocError>
    requires number { number < index_set_len run.old.met }
    requires fits { M.Fits machine.now run.old.cursor }
    ensures fits { OnOk result (M.Fits machine.now run.new.cursor) }
    ensures sees { IfOk result (λ s. (of : M.Node) → slice_get run.old.met.keys number ≡ Some of → IsSeenAs (M.sought machine.now) s of (M.stop run.new.cursor)) }
    ensures stands { OnOk result ((node : M.Node) (now : Turn M.Node M.Label) → M.Stands machine.now run.old.cursor node now → M.Stands machine.now run.new.cursor node now) }
    ensures same { OnOk result ((run.new.met ≡ run.old.met) × (run.new.place ≡ run.old.place) × (run.new.edges ≡ run.old.edges) × (M.part run.new.cursor ≡ M.part run.old.cursor) × (M.ahead run.new.cursor ≡ M.ahead run.old.cursor)) }
{
    match run.met.get_index(number) {
        Some(of) => machine.look(&mut run.cursor, of),
        None => unreachable!(),
    }
}
