//! Which leaves and which conjuncts a value that is bound concerns.
ghost use Rattle.std.specs.Prelude.{◌≡◌, ◌+◌, ◌^◌, ◌<◌, ◌≤◌, ℕ, true, false, [], length, IfOk, OnOk, MatchOption};
ghost use Rattle.zf_plan.specs.Prelude.{HasBit};
ghost use Rattle.zf_plan.specs.{AreBelow, AreChoosers, AreDue, AreTouched, Covers, HasBits, HaveLeavesWithin, IsBare, IsLayer, IsLeafDue, IsPart, IsPlan, touches, touches_inside, tree_at, trees_made, trees_of, UsesFirst};

use crate::forest::Forest;
use crate::guide::{Guide, Means};
use crate::node::Node;
use std::alloc::{AllocError, Global};
use zf_walk::{Judge, Range, with_bit};

/// By how many conjuncts a component is narrowed at most: each is asked for every row of the values before.
const MOST_NARROWING: usize = 256;

/// Conjuncts by which the values of a component are chosen, and for each of these of how many first values it and those before it do so.
#[derive(Drop)]
pub struct Choosers {
    pub conjuncts: Vec<usize>,
    pub lasts: Vec<usize>,
}

/// What a number of values concerns: the leaves that are conjuncts and need so many, the other conjuncts that have such a leaf, and those that narrow the next component, or by which its values are sifted.
#[derive(Drop)]
pub struct Layer {
    pub due: Vec<usize>,
    pub touched: Vec<usize>,
    pub narrowing: Choosers,
    pub sifting: Choosers,
    /// Which of so many first components the conjuncts use that have a leaf which needs so many, a bit each.
    pub blame: u64,
}

/// A layer for each number of values.
#[derive(Drop)]
pub struct Plan {
    pub layers: Vec<Layer>,
    /// Whether it is one by which no component is narrowed or sifted.
    pub is_plain: bool,
}

impl Plan {
    /// A plan for these ranges, or, where it is plain, one by which no component is narrowed or sifted.
    pub fn new<V: Ord, J: Guide<V>>(
        alloc: Global,
        judge: &J,
        forest: &Forest,
        ranges: &[Range<V>],
        is_plain: bool,
    ) -> Result<Plan, AllocError>
        requires leaves { HaveLeavesWithin (J.conjuncts judge.now).number (trees_of forest.now) }
        requires room { length ranges.now + 1 < 2 ^ 64 }
        ensures plan { IfOk result (IsPlan (J.conjuncts judge.now) (J.is_used judge.now) (trees_of forest.now) (length ranges.now)) }
        ensures plain { IfOk result (λ p. p.is_plain ≡ is_plain) }
    {
        let mut layers = Vec::new(alloc);
        for number in 0..ranges.len() + 1 {
            let mut layer = plain_layer(alloc, judge, forest, number)?;
            if !is_plain {
                add_choosers(judge, forest, ranges, &mut layer, number)?;
            }
            layers.push(layer)?;
        }
        Ok(Plan { layers, is_plain })
    }
}

/// Adds the conjuncts by which the component after so many is narrowed or sifted.
fn add_choosers<V: Ord, J: Guide<V>>(
    judge: &J,
    forest: &Forest,
    ranges: &[Range<V>],
    layer: &mut Layer,
    number: usize,
) -> Result<(), AllocError>
    requires leaves { HaveLeavesWithin (J.conjuncts judge.now).number (trees_of forest.now) }
    requires room { number + 1 < 2 ^ 64 }
    requires layer { IsLayer (J.conjuncts judge.now) (J.is_used judge.now) (trees_of forest.now) number layer.old }
    ensures { OnOk result (IsLayer (J.conjuncts judge.now) (J.is_used judge.now) (trees_of forest.now) number layer.new) }
{
    let narrowing = narrowing_at(*layer.due.allocator(), judge, forest, number)?;
    let sifting = sifting_at(judge, forest, ranges, &narrowing, number)?;
    layer.narrowing = with_lasts(judge, forest, narrowing, number)?;
    layer.sifting = with_lasts(judge, forest, sifting, number)?;
    Ok(())
}

/// What so many values concern, where no component is narrowed or sifted.
fn plain_layer<V, J: Judge<V>>(
    alloc: Global,
    judge: &J,
    forest: &Forest,
    number: usize,
) -> Result<Layer, AllocError>
    requires { HaveLeavesWithin (J.conjuncts judge.now).number (trees_of forest.now) }
    ensures layer { IfOk result (IsLayer (J.conjuncts judge.now) (J.is_used judge.now) (trees_of forest.now) number) }
    ensures bare { IfOk result IsBare }
{
    let due = due_at(alloc, judge, forest, number)?;
    let touched = touched_at(alloc, judge, forest, number)?;
    Ok(Layer {
        due,
        touched,
        narrowing: no_choosers(alloc),
        sifting: no_choosers(alloc),
        blame: blame_at(judge, forest, number),
    })
}

/// No conjunct.
fn no_choosers(alloc: Global) -> Choosers
    ensures conjuncts { result.conjuncts.items ≡ [] }
    ensures lasts { result.lasts.items ≡ [] }
{
    Choosers {
        conjuncts: Vec::new(alloc),
        lasts: Vec::new(alloc),
    }
}

/// The leaves that are conjuncts and need so many values.
fn due_at<V, J: Judge<V>>(
    alloc: Global,
    judge: &J,
    forest: &Forest,
    due: usize,
) -> Result<Vec<usize>, AllocError>
    requires { HaveLeavesWithin (J.conjuncts judge.now).number (trees_of forest.now) }
    ensures { IfOk result (λ leaves. AreDue (J.conjuncts judge.now) (trees_of forest.now) due (length (trees_of forest.now)) leaves.items) }
{
    let mut numbers = Vec::new(alloc);
    for conjunct in 0..forest.count() {
        if let Some(leaf) = leaf_due(judge, forest, forest.root(conjunct), due) {
            numbers.push(leaf)?;
        }
    }
    Ok(numbers)
}

/// The leaf that a tree is, if it is one that needs so many values.
fn leaf_due<V, J: Judge<V>>(judge: &J, forest: &Forest, part: usize, due: usize) -> Option<usize>
    requires part { IsPart (J.conjuncts judge.now).number forest.now part }
    ensures { MatchOption result ((c : ℕ) → IsLeafDue (J.conjuncts judge.now) due (tree_at (trees_made forest.now) part) c → ⊥) (IsLeafDue (J.conjuncts judge.now) due (tree_at (trees_made forest.now) part)) }
{
    match forest.node(part) {
        Node::Leaf(of) => { if judge.due(of) == due { Some(of) } else { None } }
        _ => None,
    }
}

/// The conjuncts that are no leaves and have one which needs so many values.
#[tactic(auto, using(crate::proofs::Numbers::touched_push, crate::proofs::Numbers::touched_skip))]
fn touched_at<V, J: Judge<V>>(
    alloc: Global,
    judge: &J,
    forest: &Forest,
    due: usize,
) -> Result<Vec<usize>, AllocError>
    requires { HaveLeavesWithin (J.conjuncts judge.now).number (trees_of forest.now) }
    ensures { IfOk result (λ numbers. AreTouched (J.conjuncts judge.now) (trees_of forest.now) due (length (trees_of forest.now)) numbers.items) }
{
    let mut numbers = Vec::new(alloc);
    for conjunct in 0..forest.count() {
        if is_touched_inside(judge, forest, forest.root(conjunct), due) {
            numbers.push(conjunct)?;
        }
    }
    Ok(numbers)
}

/// Whether a tree that is no leaf has a leaf that needs so many values.
fn is_touched_inside<V, J: Judge<V>>(judge: &J, forest: &Forest, part: usize, due: usize) -> bool
    requires part { IsPart (J.conjuncts judge.now).number forest.now part }
    ensures { result ≡ touches_inside (J.conjuncts judge.now) due (tree_at (trees_made forest.now) part) }
{
    match forest.node(part) {
        Node::Leaf(_) => false,
        Node::Not(of) => is_touched(judge, forest, of, due),
        Node::And(left, right) => {
            is_touched(judge, forest, left, due) || is_touched(judge, forest, right, due)
        }
        Node::Or(left, right) => {
            is_touched(judge, forest, left, due) || is_touched(judge, forest, right, due)
        }
    }
}

/// Whether a tree has a leaf that needs so many values.
fn is_touched<V, J: Judge<V>>(judge: &J, forest: &Forest, part: usize, due: usize) -> bool
    requires part { IsPart (J.conjuncts judge.now).number forest.now part }
    ensures { result ≡ touches (J.conjuncts judge.now) due (tree_at (trees_made forest.now) part) }
{
    match forest.node(part) {
        Node::Leaf(of) => judge.due(of) == due,
        Node::Not(of) => is_touched(judge, forest, of, due),
        Node::And(left, right) => {
            is_touched(judge, forest, left, due) || is_touched(judge, forest, right, due)
        }
        Node::Or(left, right) => {
            is_touched(judge, forest, left, due) || is_touched(judge, forest, right, due)
        }
    }
}

/// Which of so many first components the conjuncts use that have a leaf which needs so many; of more than there are bits none.
fn blame_at<V, J: Judge<V>>(judge: &J, forest: &Forest, due: usize) -> u64
    requires leaves { HaveLeavesWithin (J.conjuncts judge.now).number (trees_of forest.now) }
    ensures { due ≤ 64 → Covers (J.conjuncts judge.now) (J.is_used judge.now) (trees_of forest.now) due (length (trees_of forest.now)) result }
{
    let mut word = 0;
    if due > 64 {
        return word;
    }
    for conjunct in 0..forest.count() {
        let root = forest.root(conjunct);
        if is_touched(judge, forest, root, due) {
            word = word | used_by(judge, forest, root, due);
        }
    }
    word
}

/// Which of so many first components a tree uses.
fn used_by<V, J: Judge<V>>(judge: &J, forest: &Forest, part: usize, components: usize) -> u64
    requires part { IsPart (J.conjuncts judge.now).number forest.now part }
    requires few { components ≤ 64 }
    ensures { HasBits (J.is_used judge.now) result components (tree_at (trees_made forest.now) part) }
{
    match forest.node(part) {
        Node::Leaf(of) => used_by_leaf(judge, of, components),
        Node::Not(of) => used_by(judge, forest, of, components),
        Node::And(left, right) => {
            used_by(judge, forest, left, components) | used_by(judge, forest, right, components)
        }
        Node::Or(left, right) => {
            used_by(judge, forest, left, components) | used_by(judge, forest, right, components)
        }
    }
}

/// Which of so many first components a leaf uses.
fn used_by_leaf<V, J: Judge<V>>(judge: &J, of: usize, components: usize) -> u64
    requires of { of < (J.conjuncts judge.now).number }
    requires few { components ≤ 64 }
    ensures { (i : ℕ) → i < components → J.is_used judge.now of i ≡ true → HasBit result i }
{
    let mut word = 0;
    for component in 0..components {
        if judge.uses(of, component) {
            word = with_bit(word, component);
        }
    }
    word
}

/// The conjuncts that narrow a component: first those that do so closely, and last those that do so by keys alone.
fn narrowing_at<V: Ord, J: Guide<V>>(
    alloc: Global,
    judge: &J,
    forest: &Forest,
    component: usize,
) -> Result<Vec<usize>, AllocError>
    requires { HaveLeavesWithin (J.conjuncts judge.now).number (trees_of forest.now) }
    ensures { IfOk result (λ numbers. AreBelow (length (trees_of forest.now)) numbers.items) }
{
    let mut numbers = Vec::new(alloc);
    add_narrowing(judge, forest, component, Means::Closely, &mut numbers)?;
    add_narrowing(judge, forest, component, Means::Loosely, &mut numbers)?;
    add_narrowing(judge, forest, component, Means::ByKeys, &mut numbers)?;
    Ok(numbers)
}

/// Adds the conjuncts that narrow a component by these means, and by no nearer ones, while there are few.
#[tactic(auto, using(crate::proofs::Numbers::below_push))]
fn add_narrowing<V: Ord, J: Guide<V>>(
    judge: &J,
    forest: &Forest,
    component: usize,
    means: Means,
    numbers: &mut Vec<usize>,
) -> Result<(), AllocError>
    requires leaves { HaveLeavesWithin (J.conjuncts judge.now).number (trees_of forest.now) }
    requires below { AreBelow (length (trees_of forest.now)) numbers.old.items }
    ensures { OnOk result (AreBelow (length (trees_of forest.now)) numbers.new.items) }
{
    for conjunct in 0..forest.count() {
        if numbers.len() >= MOST_NARROWING {
            return Ok(());
        }
        let root = forest.root(conjunct);
        let is_nearer = match means {
            Means::Closely => false,
            Means::Loosely => is_narrowing(judge, forest, root, component, Means::Closely),
            Means::ByKeys => is_narrowing(judge, forest, root, component, Means::Loosely),
        };
        if !is_nearer && is_narrowing(judge, forest, root, component, means) {
            numbers.push(conjunct)?;
        }
    }
    Ok(())
}

/// Whether a tree has leaves that narrow a component by these means, in each side of a disjunction.
fn is_narrowing<V: Ord, J: Guide<V>>(
    judge: &J,
    forest: &Forest,
    part: usize,
    component: usize,
    means: Means,
) -> bool
    requires part { IsPart (J.conjuncts judge.now).number forest.now part }
{
    match forest.node(part) {
        Node::Leaf(of) => judge.narrows(of, component, means),
        Node::Not(_) => false,
        Node::And(left, right) => {
            is_narrowing(judge, forest, left, component, means)
                || is_narrowing(judge, forest, right, component, means)
        }
        Node::Or(left, right) => {
            is_narrowing(judge, forest, left, component, means)
                && is_narrowing(judge, forest, right, component, means)
        }
    }
}

/// These conjuncts, with how many first values each and those before it use, of those before a component.
fn with_lasts<V, J: Judge<V>>(
    judge: &J,
    forest: &Forest,
    conjuncts: Vec<usize>,
    component: usize,
) -> Result<Choosers, AllocError>
    requires conjuncts { AreBelow (length (trees_of forest.now)) conjuncts.items }
    requires leaves { HaveLeavesWithin (J.conjuncts judge.now).number (trees_of forest.now) }
    ensures { IfOk result (AreChoosers (J.is_used judge.now) (trees_of forest.now) component) }
{
    let mut lasts = Vec::new(*conjuncts.allocator());
    let mut last = 0;
    for i in 0..conjuncts.len() {
        let root = forest.root(conjuncts[i]);
        last = last_used(judge, forest, root, component).max(last);
        lasts.push(last)?;
    }
    Ok(Choosers { conjuncts, lasts })
}

/// How many first components a tree uses of those before one.
fn last_used<V, J: Judge<V>>(judge: &J, forest: &Forest, part: usize, component: usize) -> usize
    requires part { IsPart (J.conjuncts judge.now).number forest.now part }
    ensures few { result ≤ component }
    ensures first { UsesFirst (J.is_used judge.now) result component (tree_at (trees_made forest.now) part) }
{
    match forest.node(part) {
        Node::Leaf(of) => last_of_leaf(judge, of, component),
        Node::Not(of) => last_used(judge, forest, of, component),
        Node::And(left, right) => {
            let last = last_used(judge, forest, left, component);
            last_used(judge, forest, right, component).max(last)
        }
        Node::Or(left, right) => {
            let last = last_used(judge, forest, left, component);
            last_used(judge, forest, right, component).max(last)
        }
    }
}

/// How many first components a leaf uses of those before one.
fn last_of_leaf<V, J: Judge<V>>(judge: &J, of: usize, component: usize) -> usize
    requires { of < (J.conjuncts judge.now).number }
    ensures few { result ≤ component }
    ensures first { (i : ℕ) → result ≤ i → i < component → J.is_used judge.now of i ≡ false }
{
    let mut last = component;
    while last > 0 && !judge.uses(of, last - 1) {
        last -= 1;
    }
    last
}

/// The conjuncts by which the values of a component are sifted, where none narrows it but by keys: those that use the fewest components before it, where the others before it have many rows.
#[tactic(auto, using(crate::proofs::Numbers::below_push))]
fn sifting_at<V: Ord, J: Guide<V>>(
    judge: &J,
    forest: &Forest,
    ranges: &[Range<V>],
    narrowed: &Vec<usize>,
    component: usize,
) -> Result<Vec<usize>, AllocError>
    requires leaves { HaveLeavesWithin (J.conjuncts judge.now).number (trees_of forest.now) }
    requires narrowed { AreBelow (length (trees_of forest.now)) narrowed.now.items }
    requires room { component + 1 < 2 ^ 64 }
    ensures { IfOk result (λ numbers. AreBelow (length (trees_of forest.now)) numbers.items) }
{
    let mut numbers = Vec::new(*narrowed.allocator());
    if is_narrowed(judge, forest, narrowed, component) {
        return Ok(numbers);
    }
    let least = fewest_used(judge, forest, component);
    if !are_many(ranges, least, component) {
        return Ok(numbers);
    }
    for conjunct in 0..forest.count() {
        if used_by_sieve(judge, forest, forest.root(conjunct), component) == least {
            numbers.push(conjunct)?;
        }
    }
    Ok(numbers)
}

/// Whether one of these conjuncts narrows a component without keys.
fn is_narrowed<V: Ord, J: Guide<V>>(
    judge: &J,
    forest: &Forest,
    conjuncts: &[usize],
    component: usize,
) -> bool
    requires leaves { HaveLeavesWithin (J.conjuncts judge.now).number (trees_of forest.now) }
    requires conjuncts { AreBelow (length (trees_of forest.now)) conjuncts.now }
{
    for i in 0..conjuncts.len() {
        let root = forest.root(conjuncts[i]);
        if is_narrowing(judge, forest, root, component, Means::Loosely) {
            return true;
        }
    }
    false
}

/// How few first components a conjunct uses by which the values of a component can be sifted; all before it where there is none.
fn fewest_used<V: Ord, J: Guide<V>>(judge: &J, forest: &Forest, component: usize) -> usize
    requires leaves { HaveLeavesWithin (J.conjuncts judge.now).number (trees_of forest.now) }
    requires room { component + 1 < 2 ^ 64 }
{
    let mut least = component;
    for conjunct in 0..forest.count() {
        least = used_by_sieve(judge, forest, forest.root(conjunct), component).min(least);
    }
    least
}

/// How many first components a tree uses of those before one, if it uses that one and no later; else all.
fn used_by_sieve<V: Ord, J: Guide<V>>(
    judge: &J,
    forest: &Forest,
    part: usize,
    component: usize,
) -> usize
    requires part { IsPart (J.conjuncts judge.now).number forest.now part }
    requires room { component + 1 < 2 ^ 64 }
{
    let due = component + 1;
    if !is_touched(judge, forest, part, due) || !is_due_within(judge, forest, part, due) {
        return component;
    }
    last_used(judge, forest, part, component)
}

/// Whether no leaf of a tree needs more values than so many.
fn is_due_within<V: Ord, J: Guide<V>>(judge: &J, forest: &Forest, part: usize, due: usize) -> bool
    requires part { IsPart (J.conjuncts judge.now).number forest.now part }
{
    match forest.node(part) {
        Node::Leaf(of) => judge.due(of) <= due,
        Node::Not(of) => is_due_within(judge, forest, of, due),
        Node::And(left, right) => {
            is_due_within(judge, forest, left, due) && is_due_within(judge, forest, right, due)
        }
        Node::Or(left, right) => {
            is_due_within(judge, forest, left, due) && is_due_within(judge, forest, right, due)
        }
    }
}

/// Whether the ranges from one to before another have at least eight rows.
fn are_many<V>(ranges: &[Range<V>], from: usize, to: usize) -> bool {
    let mut rows: usize = 1;
    for i in from..to.min(ranges.len()) {
        let range = &ranges[i];
        rows = rows.saturating_mul(range.values.len());
    }
    rows >= 8
}
