//! What is explored: a graph whose edges are searched for, node by node, what is sought in it, and the words in which it is written.
ghost use Rattle.std.specs.Prelude.{◌≡◌, ◌<◌, ◌+◌, ◌-◌, ◌^◌, ◌++◌, ℕ, List, min, IfOk, OnOk};
ghost use Rattle.zf_graph.specs.{Explored, Graph, IsDecisive, IsOf, IsSure, Result, Sought, Turn, Words};
ghost use Rattle.zf_reach.specs.{AdvancesTo, BeginsAs, ending_of, HasFewer, IsSeenAs, result_of, UnlessOut};

use crate::ending::Ending;
use crate::finding::Finding;
use crate::sight::Sight;
use std::alloc::AllocError;
use std::hash::Hash;

/// How the turn of a node begins.
#[derive(Clone, Copy, PartialEq, Eq)]
pub enum Beginning {
    Regular,
    Stray,
    /// Whether it is a stray can't be decided.
    Out,
}

/// What the search for the next edge of a node comes to.
#[derive(Drop)]
pub enum Found<N, L> {
    /// An edge with this label to this node.
    Edge(L, N),
    /// There is no further one.
    Over,
    /// It can't be decided.
    Out,
}

/// A graph whose edges are searched for. The edges of a node are searched for in parts, one after another.
pub trait Machine {
    type Node: Eq + Hash + Drop;

    type Label: Drop;
    /// The search for the edges of a part.
    type Cursor: Drop;

    ghost explored: { Self → Explored Self.Node Self.Label };

    /// What it is a search of.
    ghost graph: { Self → Graph Self.Node Self.Label };

    ghost words: { Self → Words Self.Node Self.Label };

    /// Which nodes are sought.
    ghost sought: { Self → Sought Self.Node };

    /// What is said at the end of a search.
    ghost verdict: { Self → Result → (nodes edges : ℕ) → List ℕ };

    /// How many parts the edges of a node have.
    ghost parts: { Self → Self.Node → ℕ };

    /// The search is one of the machine.
    ghost Fits: { Self → Self.Cursor → Type 0 };

    /// The turn of the node begins with the edges of so many parts.
    ghost HasPassed: { Self → Self.Node → ℕ → Turn Self.Node Self.Label → Type 0 };

    /// The search is for edges of the node, whose turn begins with what is passed.
    ghost Stands: { Self → Self.Cursor → Self.Node → Turn Self.Node Self.Label → Type 0 };

    /// Which part it is for.
    ghost part: { Self.Cursor → ℕ };

    /// How many edges are ahead at most.
    ghost ahead: { Self.Cursor → ℕ };

    /// What can't be decided.
    ghost stop: { Self.Cursor → List ℕ };

    /// The node that is first.
    fn root(&self) -> Result<Self::Node, AllocError>
        ensures { IfOk result (λ n. n ≡ (explored self.now).root) };

    /// How many parts the edges of a node have.
    fn count(&self, of: &Self::Node) -> usize
        ensures { result ≡ parts self.now of.now };

    /// Begins the turn of a node.
    fn begin(&self, cursor: &mut Self::Cursor, of: &Self::Node) -> Result<Beginning, AllocError>
        requires { Fits self.now cursor.old }
        ensures fits { OnOk result (Fits self.now cursor.new) }
        ensures begins { IfOk result (λ b. (now : Turn Self.Node Self.Label) × BeginsAs (explored self.now) b of.now now (stop cursor.new) × UnlessOut b (HasPassed self.now of.now 0 now)) };

    /// Begins the search for the edges of a part.
    fn start(
        &self,
        cursor: &mut Self::Cursor,
        of: &Self::Node,
        which: usize,
    ) -> Result<(), AllocError>
        requires fits { Fits self.now cursor.old }
        requires which { which < parts self.now of.now }
        ensures fits { OnOk result (Fits self.now cursor.new) }
        ensures stands { OnOk result ((now : Turn Self.Node Self.Label) → HasPassed self.now of.now which now → Stands self.now cursor.new of.now now) }
        ensures part { OnOk result (part cursor.new ≡ which) };

    /// Goes on to the next edge of the part.
    fn advance(
        &self,
        cursor: &mut Self::Cursor,
    ) -> Result<Found<Self::Node, Self::Label>, AllocError>
        requires { Fits self.now cursor.old }
        ensures fits { OnOk result (Fits self.now cursor.new) }
        ensures part { OnOk result (part cursor.new ≡ part cursor.old) }
        ensures answer { IfOk result (λ f. (of : Self.Node) (now : Turn Self.Node Self.Label) → Stands self.now cursor.old of now → AdvancesTo (explored self.now) f of now (Stands self.now cursor.new of) (HasPassed self.now of (part cursor.old + 1)) (stop cursor.new)) }
        ensures fewer { IfOk result (λ f. HasFewer f (ahead cursor.old) (ahead cursor.new)) };

    /// Looks at a node. The search for edges stays where it stands.
    fn look(&self, cursor: &mut Self::Cursor, of: &Self::Node) -> Result<Sight, AllocError>
        requires { Fits self.now cursor.old }
        ensures fits { OnOk result (Fits self.now cursor.new) }
        ensures sees { IfOk result (λ s. IsSeenAs (sought self.now) s of.now (stop cursor.new)) }
        ensures stands { OnOk result ((node : Self.Node) (now : Turn Self.Node Self.Label) → Stands self.now cursor.old node now → Stands self.now cursor.new node now) }
        ensures same { OnOk result ((part cursor.new ≡ part cursor.old) × (ahead cursor.new ≡ ahead cursor.old)) };

    /// Appends what is said before all else.
    fn append_head(&self, line: &mut Vec<u8>) -> Result<(), AllocError>
        ensures { OnOk result (line.new.items ≡ line.old.items ++ (words self.now).head) };

    /// Appends what is said of a node.
    fn append_node(
        &self,
        line: &mut Vec<u8>,
        from: usize,
        number: usize,
        of: &Self::Node,
    ) -> Result<(), AllocError>
        ensures { OnOk result (line.new.items ≡ line.old.items ++ (words self.now).node from number of.now) };

    /// Appends what is said of an edge.
    fn append_edge(
        &self,
        line: &mut Vec<u8>,
        from: usize,
        label: &Self::Label,
        number: usize,
    ) -> Result<(), AllocError>
        ensures { OnOk result (line.new.items ≡ line.old.items ++ (words self.now).edge from label.now number) };

    /// Appends what is said of a stray.
    fn append_stray(&self, line: &mut Vec<u8>, number: usize) -> Result<(), AllocError>
        ensures { OnOk result (line.new.items ≡ line.old.items ++ (words self.now).stray number) };

    /// Appends what is said of a node without edges.
    fn append_stuck(&self, line: &mut Vec<u8>, number: usize) -> Result<(), AllocError>
        ensures { OnOk result (line.new.items ≡ line.old.items ++ (words self.now).stuck number) };

    /// Appends what is said at the end, of so many nodes and edges.
    fn append_last(
        &self,
        line: &mut Vec<u8>,
        ending: Ending,
        cursor: &Self::Cursor,
        nodes: usize,
        edges: u64,
    ) -> Result<(), AllocError>
        ensures { OnOk result ((n : ℕ) → edges ≡ min n (2 ^ 64 - 1) → line.new.items ≡ line.old.items ++ (words self.now).last (ending_of ending (stop cursor.now)) nodes n) };

    /// Appends what is said at the end of a search, of so many nodes and edges.
    fn append_verdict(
        &self,
        line: &mut Vec<u8>,
        finding: Finding,
        cursor: &Self::Cursor,
        nodes: usize,
        edges: u64,
    ) -> Result<(), AllocError>
        ensures { OnOk result ((n : ℕ) → edges ≡ min n (2 ^ 64 - 1) → line.new.items ≡ line.old.items ++ verdict self.now (result_of finding (stop cursor.now)) nodes n) };

    ghost all_passed: { (m : Self) (of : Self.Node) (now : Turn Self.Node Self.Label) → HasPassed m of (parts m of) now → (explored m).HasTurn of now };

    ghost of_graph: { (m : Self) → IsOf (explored m) (graph m) };

    ghost sure: { (m : Self) → IsSure (explored m) };

    ghost decisive: { (m : Self) → IsDecisive (explored m) (sought m) };

    ghost same_nodes: { (m : Self) → (explored m).eq ≡ Self.Node.eq };
}
