//! Laws of what is explored of a specification.
ghost use Rattle.std.specs.Prelude.{ℕ};
ghost use Rattle.zf_steps.specs.Prelude.{IsDecisive, IsOf, IsSearchedInOneWay, IsSure};
ghost use Rattle.zf_steps.specs.{exploration, explored_in, sought_in, steps, System, verdict, words};
ghost use Rattle.zf_steps.specs.contracts.node.NodePartialEq.TheImpl as nodes;

/// What is explored of a specification is its graph: a turn of a state has exactly the steps from it, and a state has one turn, or one place at which its turn breaks off.
pub fn one_exploration()
    ensures graph { (m : System) → IsOf (exploration m nodes.ghosts.eq) (steps m nodes.ghosts.eq) }
    ensures sure { (m : System) → IsSure (exploration m nodes.ghosts.eq) }
{}

/// A state is at most one of sought, another, and one of which it can't be decided; so a search for one has one text, and ends in one way.
pub fn one_search()
    ensures decisive { (m : System) → IsDecisive (explored_in m) (sought_in m) }
    ensures one { (m : System) (limit : ℕ) → IsSearchedInOneWay (explored_in m) (sought_in m) (words m) (verdict m) limit }
{}
