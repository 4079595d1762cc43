//! Where an exploration stands.
ghost use Rattle.std.specs.Prelude.{◌≡◌, ℕ, ◌<◌, ◌∷◌, ◌-◌, ◌++◌, [], IfOk, OnOk, cond, false, length, slice_get, Some, true};
ghost use Rattle.indexmap.specs.IndexSet.{index_set_len};
ghost use Rattle.zf_graph.specs.{edge_text, Turn, with_node};
ghost use Rattle.zf_reach.specs.{BeginsAs, counted, cut, edge, ending_of, IsFull, UnlessOut};

use crate::ending::Ending;
use crate::machine::{Beginning, Machine};
use indexmap::IndexSet;
use std::alloc::{AllocError, Global};
use std::hash::Hash;

/// The nodes that are met, in their order, and the search in the turn of one of them.
#[derive(Drop)]
pub struct Run<N: Eq + Hash, C> {
    pub met: IndexSet<N>,
    pub cursor: C,
    /// Which of them has its turn.
    pub place: usize,
    /// How many edges of nodes other than the root are passed, up to the greatest number.
    pub edges: u64,
    /// Whether no edge is passed in this turn.
    pub stuck: bool,
    /// What is to be written next.
    pub line: Vec<u8>,
}

/// Before the turn of the root.
pub fn begun<M: Machine>(
    alloc: Global,
    machine: &M,
    cursor: M::Cursor,
) -> Result<Run<M::Node, M::Cursor>, AllocError>
    ensures cursor { IfOk result (λ r. r.cursor ≡ cursor) }
    ensures met { IfOk result (λ r. r.met.keys ≡ (M.explored machine.now).root ∷ []) }
    ensures none { IfOk result (λ r. (r.place ≡ 0) × (r.edges ≡ 0)) }
{
    let mut met = IndexSet::new(alloc);
    let root = machine.root()?;
    let _is_new = met.insert(root)?;
    Ok(Run {
        met,
        cursor,
        place: 0,
        edges: 0,
        stuck: true,
        line: Vec::new(alloc),
    })
}

/// Begins the turn of the next node.
pub fn begin_turn<M: Machine>(
    machine: &M,
    run: &mut Run<M::Node, M::Cursor>,
) -> Result<Beginning, AllocError>
    requires node { run.old.place < index_set_len run.old.met }
    requires fits { M.Fits machine.now run.old.cursor }
    ensures fits { OnOk result (M.Fits machine.now run.new.cursor) }
    ensures begins { IfOk result (λ b. (of : M.Node) (at : slice_get run.old.met.keys run.old.place ≡ Some of) → (now : Turn M.Node M.Label) × BeginsAs (M.explored machine.now) b of now (M.stop run.new.cursor) × UnlessOut b (M.HasPassed machine.now of 0 now)) }
    ensures same { OnOk result ((run.new.met ≡ run.old.met) × (run.new.place ≡ run.old.place) × (run.new.edges ≡ run.old.edges)) }
    ensures stuck { OnOk result (run.new.stuck ≡ true) }
{
    run.stuck = true;
    match run.met.get_index(run.place) {
        Some(of) => machine.begin(&mut run.cursor, of),
        None => unreachable!(),
    }
}

/// How many parts the edges of the node have whose turn it is.
pub fn parts_of<M: Machine>(machine: &M, run: &Run<M::Node, M::Cursor>) -> usize
    requires { run.now.place < index_set_len run.now.met }
    ensures { (of : M.Node) → slice_get run.now.met.keys run.now.place ≡ Some of → result ≡ M.parts machine.now of }
{
    match run.met.get_index(run.place) {
        Some(of) => machine.count(of),
        None => unreachable!(),
    }
}

/// Begins the search for the edges of a part.
pub fn start_part<M: Machine>(
    machine: &M,
    run: &mut Run<M::Node, M::Cursor>,
    which: usize,
) -> Result<(), AllocError>
    requires node { run.old.place < index_set_len run.old.met }
    requires which { (of : M.Node) → slice_get run.old.met.keys run.old.place ≡ Some of → which < M.parts machine.now of }
    requires fits { M.Fits machine.now run.old.cursor }
    ensures fits { OnOk result (M.Fits machine.now run.new.cursor) }
    ensures stands { OnOk result ((of : M.Node) → slice_get run.old.met.keys run.old.place ≡ Some of → (now : Turn M.Node M.Label) → M.HasPassed machine.now of which now → M.Stands machine.now run.new.cursor of now) }
    ensures part { OnOk result (M.part run.new.cursor ≡ which) }
    ensures same { OnOk result ((run.new.met ≡ run.old.met) × (run.new.place ≡ run.old.place) × (run.new.edges ≡ run.old.edges) × (run.new.stuck ≡ run.old.stuck)) }
{
    match run.met.get_index(run.place) {
        Some(of) => machine.start(&mut run.cursor, of, which),
        None => unreachable!(),
    }
}

/// Passes an edge, and lays out what is said of it. Whether as many nodes are met then as are asked for.
pub fn pass<M: Machine>(
    machine: &M,
    limit: usize,
    run: &mut Run<M::Node, M::Cursor>,
    label: &M::Label,
    to: M::Node,
) -> Result<bool, AllocError>
    ensures met { OnOk result (run.new.met.keys ≡ with_node (M.explored machine.now).eq run.old.met.keys to) }
    ensures text { OnOk result (run.new.line.items ≡ edge_text (M.words machine.now) (M.explored machine.now).eq run.old.place run.old.met.keys (edge label.now to)) }
    ensures edges { OnOk result (run.new.edges ≡ counted run.old.place run.old.edges) }
    ensures full { IfOk result (λ full. IsFull full (M.explored machine.now).eq run.old.met.keys to limit) }
    ensures same { OnOk result ((run.new.cursor ≡ run.old.cursor) × (run.new.place ≡ run.old.place) × (run.new.stuck ≡ false)) }
{
    let (number, is_new) = run.met.insert_full(to)?;
    lay_out(machine, run, label, number, is_new)?;
    count(run);
    run.stuck = false;
    Ok(is_new && number == limit)
}

/// Lays out what is said of an edge to the node of this number, and of that node where it is new.
fn lay_out<M: Machine>(
    machine: &M,
    run: &mut Run<M::Node, M::Cursor>,
    label: &M::Label,
    number: usize,
    is_new: bool,
) -> Result<(), AllocError>
    requires { number < index_set_len run.old.met }
    ensures text { OnOk result ((to : M.Node) → slice_get run.old.met.keys number ≡ Some to → run.new.line.items ≡ cond is_new ((M.words machine.now).node run.old.place number to) [] ++ (M.words machine.now).edge run.old.place label.now number) }
    ensures same { OnOk result ((run.new.met ≡ run.old.met) × (run.new.cursor ≡ run.old.cursor) × (run.new.place ≡ run.old.place) × (run.new.edges ≡ run.old.edges)) }
{
    run.line.clear();
    if is_new {
        append_new(machine, run, number)?;
    }
    machine.append_edge(&mut run.line, run.place, label, number)
}

/// Counts an edge, unless it is one of the root.
pub fn count<N: Eq + Hash, C>(run: &mut Run<N, C>)
    ensures count { run.new.edges ≡ counted run.old.place run.old.edges }
    ensures same { (run.new.met ≡ run.old.met) × (run.new.cursor ≡ run.old.cursor) × (run.new.place ≡ run.old.place) × (run.new.line ≡ run.old.line) }
{
    if run.place > 0 {
        run.edges = run.edges.saturating_add(1);
    }
}

/// Appends what is said of the node of this number.
fn append_new<M: Machine>(
    machine: &M,
    run: &mut Run<M::Node, M::Cursor>,
    number: usize,
) -> Result<(), AllocError>
    requires { number < index_set_len run.old.met }
    ensures text { OnOk result ((of : M.Node) → slice_get run.old.met.keys number ≡ Some of → run.new.line.items ≡ run.old.line.items ++ (M.words machine.now).node run.old.place number of) }
    ensures same { OnOk result ((run.new.met ≡ run.old.met) × (run.new.cursor ≡ run.old.cursor) × (run.new.place ≡ run.old.place) × (run.new.edges ≡ run.old.edges)) }
{
    match run.met.get_index(number) {
        Some(of) => machine.append_node(&mut run.line, run.place, number, of),
        None => unreachable!(),
    }
}

/// Appends what is said at the end.
pub fn append_last<M: Machine>(
    machine: &M,
    run: &mut Run<M::Node, M::Cursor>,
    ending: Ending,
) -> Result<(), AllocError>
    ensures { OnOk result ((n : ℕ) → run.old.edges ≡ cut n → run.new.line.items ≡ (M.words machine.now).last (ending_of ending (M.stop run.old.cursor)) (length run.old.met.keys - 1) n) }
{
    run.line.clear();
    let nodes = run.met.len().saturating_sub(1);
    machine.append_last(&mut run.line, ending, &run.cursor, nodes, run.edges)
}
