//! Forests.
ghost use Rattle.std.specs.Prelude.{◌≡◌, ◌<◌, [], length, IfOk, OnOk, OnErr};
ghost use Rattle.zf_plan.specs.{both, either, Grows, IsFlat, IsOver, leaf, negated, Takes, tree_at, tree_of, trees_made, trees_of};

use crate::node::Node;
use std::alloc::{AllocError, Global};
use std::marker::Model;

/// Trees over leaves. Each is made of earlier ones, and some are conjuncts.
#[derive(Drop)]
pub struct Forest {
    nodes: Vec<Node>,
    roots: Vec<usize>,
}

impl Model for Forest {
    ghost use Rattle.zf_plan.specs.Groves.{Grove, IsGrown};

    ghost Value = { Grove };

    ghost view = { λ f. record { nodes = f.nodes.items; roots = f.roots.items } };

    ghost invariant = { λ f. IsGrown (record { nodes = f.nodes.items; roots = f.roots.items }) };
}

impl Forest {
    /// Without a tree.
    pub fn new(alloc: Global) -> Forest
        ensures made { trees_made result ≡ [] }
        ensures trees { trees_of result ≡ [] }
    {
        Forest {
            nodes: Vec::new(alloc),
            roots: Vec::new(alloc),
        }
    }

    /// Each of so many leaves as a conjunct, in order.
    #[tactic(auto, using(crate::proofs::Groves::flat_push, crate::proofs::Groves::flat_none))]
    pub fn flat(alloc: Global, count: usize) -> Result<Forest, AllocError>
        ensures { IfOk result (λ f. IsFlat count (trees_of f)) }
    {
        let mut forest = Forest::new(alloc);
        for of in 0..count {
            let place = forest.leaf(of)?;
            forest.take(place)?;
        }
        Ok(forest)
    }

    /// The leaf at this place of its judge. As each tree that is made, it is answered by its own place here.
    pub fn leaf(&mut self, of: usize) -> Result<usize, AllocError>
        ensures ok { IfOk result (λ place. Grows self.old (leaf of) place self.new) }
        ensures err { OnErr result (self.new ≡ self.old) }
    {
        self.grow(Node::Leaf(of))
    }

    pub fn not(&mut self, part: usize) -> Result<usize, AllocError>
        requires { part < length (trees_made self.old) }
        ensures ok { IfOk result (λ place. Grows self.old (negated (tree_at (trees_made self.old) part)) place self.new) }
        ensures err { OnErr result (self.new ≡ self.old) }
    {
        self.grow(Node::Not(part))
    }

    pub fn and(&mut self, left: usize, right: usize) -> Result<usize, AllocError>
        requires left { left < length (trees_made self.old) }
        requires right { right < length (trees_made self.old) }
        ensures ok { IfOk result (λ place. Grows self.old (both (tree_at (trees_made self.old) left) (tree_at (trees_made self.old) right)) place self.new) }
        ensures err { OnErr result (self.new ≡ self.old) }
    {
        self.grow(Node::And(left, right))
    }

    pub fn or(&mut self, left: usize, right: usize) -> Result<usize, AllocError>
        requires left { left < length (trees_made self.old) }
        requires right { right < length (trees_made self.old) }
        ensures ok { IfOk result (λ place. Grows self.old (either (tree_at (trees_made self.old) left) (tree_at (trees_made self.old) right)) place self.new) }
        ensures err { OnErr result (self.new ≡ self.old) }
    {
        self.grow(Node::Or(left, right))
    }

    /// Takes a tree as the next conjunct.
    pub fn take(&mut self, place: usize) -> Result<(), AllocError>
        requires { place < length (trees_made self.old) }
        ensures ok { OnOk result (Takes self.old place self.new) }
        ensures err { OnErr result (self.new ≡ self.old) }
    {
        self.roots.push(place)?;
        Ok(())
    }

    /// How many conjuncts there are.
    pub fn count(&self) -> usize
        ensures { result ≡ length (trees_of self.now) }
    {
        self.roots.len()
    }

    /// The place of a conjunct's tree.
    pub fn root(&self, conjunct: usize) -> usize
        requires { conjunct < length (trees_of self.now) }
        ensures within { result < length (trees_made self.now) }
        ensures tree { tree_at (trees_made self.now) result ≡ tree_at (trees_of self.now) conjunct }
    {
        self.roots[conjunct]
    }

    /// What a tree is made of.
    pub fn node(&self, place: usize) -> Node
        requires { place < length (trees_made self.now) }
        ensures over { IsOver place result }
        ensures tree { tree_at (trees_made self.now) place ≡ tree_of (trees_made self.now) result }
    {
        self.nodes[place]
    }

    /// Makes the next tree.
    fn grow(&mut self, node: Node) -> Result<usize, AllocError>
        requires { IsOver (length (trees_made self.old)) node }
        ensures ok { IfOk result (λ place. Grows self.old (tree_of (trees_made self.old) node) place self.new) }
        ensures err { OnErr result (self.new ≡ self.old) }
    {
        let place = self.nodes.len();
        self.nodes.push(node)?;
        Ok(place)
    }
}
