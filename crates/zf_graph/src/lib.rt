//! Graphs with a root, breadth-first explorations of them, and their text: definitions, and lemmas that laws of other crates cite.
#![tactic(auto)]
