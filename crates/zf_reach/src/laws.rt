//! Laws of explorations.
ghost use Rattle.std.specs.Prelude.{◌≤◌, ℕ, Bool, IsTrue};
ghost use Rattle.zf_graph.specs.{EachIsTold, EachNodeHasTurn, FindsShortest, FoundIsShortest, HasEachStep, IsSearchedInOneWay, IsSomehowSearched, IsSomehowWritten, IsWrittenInOneWay, MeetsOnce, MeetsReachable, MeetsShortly, MissingIsNowhere, PartsAreFronts};

use crate::machine::Machine;

/// Where each node that is met has had its turn, those that are met are exactly the reachable ones, each once, and each along a way than which none is shorter; and the turns have exactly their edges.
pub fn meets_all<M: Machine>()
    ensures reachable { (m : M) → MeetsReachable (M.explored m) (M.graph m) }
    ensures once { (m : M) → MeetsOnce (M.explored m) (M.graph m) }
    ensures shortly { (m : M) → MeetsShortly (M.explored m) (M.graph m) }
    ensures steps { (m : M) → HasEachStep (M.explored m) (M.graph m) }
{}

/// An exploration has one text, and what is written where it stops early is the front of it.
pub fn one_text<M: Machine>()
    ensures one { (m : M) (limit : ℕ) → IsWrittenInOneWay (M.explored m) (M.words m) limit }
    ensures fronts { (m : M) (limit : ℕ) → PartsAreFronts (M.explored m) (M.words m) limit }
{}

/// Where a node that passes a test is met, and none did before it, the way along which it is met is a shortest one to such a node.
pub fn finds_shortest<M: Machine>()
    ensures { (m : M) (test : M.Node → Bool) → FindsShortest (M.explored m) (M.graph m) (λ b. IsTrue (test b)) }
{}

/// Where each node has a turn, or a place at which its turn breaks off, an exploration has a text.
pub fn some_text<M: Machine>()
    ensures { (m : M) (limit : ℕ) → EachNodeHasTurn (M.explored m) → 1 ≤ limit → IsSomehowWritten (M.explored m) (M.words m) limit }
{}

/// Where a search finds a node, a shortest way to one that is sought is written; where it finds none, no reachable node is sought.
pub fn finds_sought<M: Machine>()
    ensures found { (m : M) (limit : ℕ) → FoundIsShortest (M.explored m) (M.graph m) (M.sought m) (M.words m) (M.verdict m) limit }
    ensures missing { (m : M) (limit : ℕ) → MissingIsNowhere (M.explored m) (M.graph m) (M.sought m) (M.words m) (M.verdict m) limit }
{}

/// A search has one text, and ends in one way.
pub fn one_search<M: Machine>()
    ensures { (m : M) (limit : ℕ) → IsSearchedInOneWay (M.explored m) (M.sought m) (M.words m) (M.verdict m) limit }
{}

/// Where each node has a turn, or a place at which its turn breaks off, and each is sought, or another, or it can't be decided, a search has a text.
pub fn some_search<M: Machine>()
    ensures { (m : M) (limit : ℕ) → EachNodeHasTurn (M.explored m) → EachIsTold (M.explored m) (M.sought m) → 1 ≤ limit → IsSomehowSearched (M.explored m) (M.sought m) (M.words m) (M.verdict m) limit }
{}
