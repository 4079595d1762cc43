//! Schemas that grow within the limits.
ghost use Rattle.std.specs.Prelude.{◌≡◌, ◌∷◌, [], ◌++◌, ◌↔◌, IfErr, IfOk, IsTrue, OnOk, length, map};
ghost use Rattle.zf_calculus.specs.Prelude.{AreFew, comp_of, conjunct_of, HasLeft, IsTooLarge, KeepsTo, moved, numbering, ResolvedTree, schema_of, place_in};
ghost use Rattle.zf_calculus.specs.{Adds, Agree, Agrees, Clashes, conjoined, constrained, empty_schema, equalities, equality, grown, IfStopped, Includes, IsNext, new_place, OneClashes, Stops};

use crate::components::{agree, agrees, are_apart, join, join_all};
use crate::limits::{COMPONENTS_MAX, CONJUNCTS_MAX, NODES_MAX, SETS_MAX};
use crate::room::{Measure, after, after_all, after_conjuncts, is_low, none_too_high};
use crate::spare::Spare;
use crate::stop::Stop;
use bumpalo::Bump;
use std::alloc::AllocError;
use std::marker::Model;
use std::mem;
use zf_data::arena::{Boxed, Chunked, Items, Lasting};
use zf_reference::Reference;
use zf_shape::conjunct::room_after;
use zf_term::{Component, Conjunct, Flat, Left, Limit, Measured, Resolved, ResolvedLink};
use zf_tree::{Relation, Span};

/// A schema within the limits that contracts see as the schema. It keeps what is left of them, so that each step costs only what it adds.
#[derive(Drop)]
pub struct Growing<'a> {
    pub(crate) flat: Flat<'a>,
    pub(crate) left: Left,
}

impl<'a> Model for Growing<'a> {
    ghost use denote.Signature.{static_lft};
    ghost use Rattle.zf_term.specs.{HasLeft, schema_of};
    ghost use Rattle.zf_term.specs.contracts.schema.Flat as stored;
    ghost use Rattle.zf_term.specs.declared.schema.Flat as program;

    ghost Value = { program.Flat };

    ghost coded = { (stored.the_row static_lft).coded };

    ghost view = { λ g. g.flat };

    ghost invariant = { λ g. HasLeft (schema_of g.flat) g.left.sets g.left.nodes };
}

impl<'a> Growing<'a> {
    /// The schema of no declarations, with room for what is expected of it.
    pub fn with_room(arena: &'a Bump, spare: Spare) -> Result<Growing<'a>, AllocError>
        ensures { IfOk result (λ g. schema_of g ≡ empty_schema) }
    {
        let components = Items::with_room(arena, spare.components)?;
        let conjuncts = Chunked::with_room(arena, spare.conjuncts);
        Ok(Growing::begun(components, conjuncts))
    }

    /// The schema of no declarations, in these lists.
    fn begun(
        components: Items<'a, Component<'a>>,
        conjuncts: Chunked<'a, Conjunct<'a>>,
    ) -> Growing<'a>
        requires components { components ≡ [] }
        requires conjuncts { conjuncts ≡ [] }
        ensures { schema_of result ≡ empty_schema }
    {
        Growing {
            flat: Flat {
                components,
                conjuncts,
            },
            left: Left {
                sets: SETS_MAX,
                nodes: NODES_MAX,
            },
        }
    }

    /// A schema that was made elsewhere, if it is within the limits.
    pub fn of(flat: Flat<'a>) -> Result<Growing<'a>, Limit>
        ensures ok { IfOk result (λ g. schema_of g ≡ schema_of flat.entry) }
        ensures passed { IfErr result (λ l. KeepsTo l (schema_of flat.entry) → ⊥) }
    {
        let left = left_of(&flat)?;
        Ok(Growing { flat, left })
    }

    /// The schema, as it is kept.
    pub fn measured(self) -> Measured<'a>
        ensures { result ≡ self.entry }
    {
        Measured::of(self.flat, self.left)
    }

    pub fn flat(&self) -> &Flat<'a>
        ensures { result.now ≡ self.now }
    {
        &self.flat
    }

    /// One more component.
    pub fn add(&mut self, component: Component<'a>) -> Result<(), Stop<'a>>
        ensures ok { OnOk result (Adds (schema_of self.old) (comp_of component.entry) (schema_of self.new)) }
        ensures err { IfErr result (λ e. IfStopped e (Stops (Clashes (schema_of self.old).comps (comp_of component.entry)) (Agrees (schema_of self.old).comps (comp_of component.entry)) (grown (schema_of self.old) (comp_of component.entry)))) }
    {
        agrees(self.flat().components.as_slice(), &component)?;
        self.grow(component)
    }

    /// One more component, whatever type one of its name has.
    pub fn grow(&mut self, component: Component<'a>) -> Result<(), Stop<'a>>
        ensures ok { OnOk result (IsNext (grown (schema_of self.old) (comp_of component.entry)) (schema_of self.new)) }
        ensures err { IfErr result (λ e. IfStopped e (IsTooLarge (grown (schema_of self.old) (comp_of component.entry)))) }
    {
        let left = self.left_behind(&component)?;
        if let Err(stop) = join(&mut self.flat.components, component) {
            let arena = self.flat.conjuncts.arena();
            *self = Growing::begun(Items::new(arena), Chunked::new(arena));
            return Err(stop);
        }
        self.left = left;
        Ok(())
    }

    /// What is left of the limits after one more component, where there is room for its declared sets.
    fn left_behind(&self, component: &Component<'a>) -> Result<Left, Stop<'a>>
        ensures ok { IfOk result (λ l. AreFew (grown (schema_of self.now) (comp_of component.now)).comps → HasLeft (grown (schema_of self.now) (comp_of component.now)) l.sets l.nodes) }
        ensures err { IfErr result (λ e. IfStopped e (IsTooLarge (grown (schema_of self.now) (comp_of component.now)))) }
    {
        let Some(sets) = after(Measure::Sets, component.domains.get(), self.left.sets) else {
            return Err(Stop::TooLarge(Limit::Sets));
        };
        let Some(nodes) = after(Measure::Nodes, component.domains.get(), self.left.nodes) else {
            return Err(Stop::TooLarge(Limit::Nodes));
        };
        Ok(Left { sets, nodes })
    }

    /// One more conjunct.
    pub fn take(&mut self, conjunct: Conjunct<'a>) -> Result<(), Stop<'a>>
        ensures ok { OnOk result (IsNext (constrained (schema_of self.old) (conjunct_of conjunct.entry ∷ [])) (schema_of self.new)) }
        ensures err { IfErr result (λ e. IfStopped e (IsTooLarge (constrained (schema_of self.old) (conjunct_of conjunct.entry ∷ [])))) }
    {
        let left = self.left_after(&conjunct)?;
        self.flat.conjuncts.push(conjunct)?;
        self.left = left;
        Ok(())
    }

    /// What is left of the limits after one more conjunct, where there is room for it.
    #[inline]
    fn left_after(&self, conjunct: &Conjunct<'a>) -> Result<Left, Stop<'a>>
        ensures ok { IfOk result (λ l. HasLeft (constrained (schema_of self.now) (conjunct_of conjunct.now ∷ [])) l.sets l.nodes) }
        ensures err { IfErr result (λ e. IfStopped e (IsTooLarge (constrained (schema_of self.now) (conjunct_of conjunct.now ∷ [])))) }
    {
        let Some(nodes) = room_after(conjunct, self.left.nodes) else {
            return Err(Stop::TooLarge(Limit::Nodes));
        };
        if self.flat.conjuncts.len() >= CONJUNCTS_MAX {
            return Err(Stop::TooLarge(Limit::Conjuncts));
        }
        if !is_low(conjunct, self.left.nodes - nodes) {
            return Err(Stop::TooLarge(Limit::Height));
        }
        let sets = self.left.sets;
        Ok(Left { sets, nodes })
    }

    /// Another schema that is taken in: its components, and then its conjuncts.
    pub fn include(&mut self, arena: &'a Bump, other: Growing<'a>) -> Result<(), Stop<'a>>
        ensures ok { OnOk result (Includes (schema_of self.old) (schema_of other.entry) (schema_of self.new)) }
        ensures err { IfErr result (λ e. IfStopped e (Stops (OneClashes (schema_of self.old).comps (schema_of other.entry).comps) (Agree (schema_of self.old).comps (schema_of other.entry).comps) (conjoined (schema_of self.old) (schema_of other.entry)))) }
    {
        agree(
            self.flat().components.as_slice(),
            other.flat().components.as_slice(),
        )?;
        if self.becomes(&other) {
            *self = other;
            return Ok(());
        }
        let nothing = Growing::begun(Items::new(arena), Chunked::new(arena));
        let before = mem::replace(self, nothing);
        let merged = before.merge(arena, other)?;
        *self = merged.0;
        Ok(())
    }

    /// Whether there is nothing yet, and the other schema can be taken in as it is.
    fn becomes(&self, other: &Growing<'a>) -> bool
        ensures { IsTrue result → schema_of other.now ≡ conjoined (schema_of self.now) (schema_of other.now) }
    {
        if !self.is_nothing() {
            return false;
        }
        are_apart(other.flat().components.as_slice())
    }

    /// Whether it has neither components nor conjuncts.
    pub fn is_nothing(&self) -> bool
        ensures { IsTrue result ↔ (schema_of self.now ≡ empty_schema) }
    {
        self.flat().components.as_slice().is_empty() && self.flat().conjuncts.len() == 0
    }

    /// The schema with another one taken in, whatever types components of one name have; answers where the components of that are.
    pub fn merge(
        self,
        arena: &'a Bump,
        other: Growing<'a>,
    ) -> Result<(Growing<'a>, Lasting<'a, Items<'a, usize>>), Stop<'a>>
        ensures ok { IfOk result (λ p. IsNext (conjoined (schema_of self.entry) (schema_of other.entry)) (schema_of p.0)) }
        ensures places { IfOk result (λ p. place_in p.1 ≡ new_place (schema_of other.entry).comps (conjoined (schema_of self.entry) (schema_of other.entry)).comps) }
        ensures each { IfOk result (λ p. length p.1 ≡ length (schema_of other.entry).comps) }
        ensures err { IfErr result (λ e. IfStopped e (IsTooLarge (conjoined (schema_of self.entry) (schema_of other.entry)))) }
    {
        let left = match self.left_beside(&other) {
            Ok(left) => left,
            Err(limit) => return Err(Stop::TooLarge(limit)),
        };
        let mut flat = self.flat;
        let Flat {
            components,
            conjuncts,
        } = other.flat;
        let places = join_all(&mut flat.components, arena, components)?;
        let places = Lasting::new(arena, places)?;
        take_moved(&mut flat.conjuncts, arena, conjuncts, &places)?;
        Ok((Growing { flat, left }, places))
    }

    /// How many declared sets and nodes are left beside another schema, where there is room for it and its conjuncts.
    fn left_beside(&self, other: &Growing<'a>) -> Result<Left, Limit>
        ensures ok { IfOk result (λ l. AreFew (conjoined (schema_of self.now) (schema_of other.now)).comps → HasLeft (conjoined (schema_of self.now) (schema_of other.now)) l.sets l.nodes) }
        ensures passed { IfErr result (λ l. KeepsTo l (conjoined (schema_of self.now) (schema_of other.now)) → ⊥) }
    {
        let Some(sets) = self.left.sets.checked_sub(SETS_MAX - other.left.sets) else {
            return Err(Limit::Sets);
        };
        let Some(nodes) = self.left.nodes.checked_sub(NODES_MAX - other.left.nodes) else {
            return Err(Limit::Nodes);
        };
        if self.flat.conjuncts.len() + other.flat.conjuncts.len() > CONJUNCTS_MAX {
            return Err(Limit::Conjuncts);
        }
        Ok(Left { sets, nodes })
    }

    /// That each component is equal to the one at the place in the list, one after another.
    pub fn take_equalities(
        &mut self,
        arena: &'a Bump,
        span: Span,
        places: &[usize],
    ) -> Result<(), Stop<'a>>
        ensures ok { OnOk result (IsNext (constrained (schema_of self.old) (equalities span 0 places.now)) (schema_of self.new)) }
        ensures err { IfErr result (λ e. IfStopped e (IsTooLarge (constrained (schema_of self.old) (equalities span 0 places.now)))) }
    {
        for place in 0..places.len() {
            let other = places[place];
            let equality = equality(arena, span, place, other)?;
            self.take(equality)?;
        }
        let _ = &self.left;
        Ok(())
    }
}

/// What is left of the limits after a schema, if it is within them.
fn left_of<'a>(flat: &Flat<'a>) -> Result<Left, Limit>
    ensures ok { IfOk result (λ l. HasLeft (schema_of flat.now) l.sets l.nodes) }
    ensures passed { IfErr result (λ l. KeepsTo l (schema_of flat.now) → ⊥) }
{
    // Before its nodes are counted, which descends as far as it is high.
    if !none_too_high(&flat.conjuncts) {
        return Err(Limit::Height);
    }
    if flat.components.len() > COMPONENTS_MAX {
        return Err(Limit::Components);
    }
    if flat.conjuncts.len() > CONJUNCTS_MAX {
        return Err(Limit::Conjuncts);
    }
    let Some(sets) = after_all(Measure::Sets, flat.components.as_slice(), SETS_MAX) else {
        return Err(Limit::Sets);
    };
    let Some(behind_sets) = after_all(Measure::Nodes, flat.components.as_slice(), NODES_MAX) else {
        return Err(Limit::Nodes);
    };
    let Some(nodes) = after_conjuncts(&flat.conjuncts, behind_sets) else {
        return Err(Limit::Nodes);
    };
    Ok(Left { sets, nodes })
}

/// Further conjuncts, whose components are at these places.
pub fn take_moved<'a>(
    conjuncts: &mut Chunked<'a, Conjunct<'a>>,
    arena: &'a Bump,
    further: Chunked<'a, Conjunct<'a>>,
    places: &Lasting<'a, Items<'a, usize>>,
) -> Result<(), AllocError>
    ensures { OnOk result (map conjunct_of conjuncts.new ≡ map conjunct_of conjuncts.old ++ map (moved (place_in places.now)) (map conjunct_of further.entry)) }
{
    if are_own(places.get().as_slice()) {
        return conjuncts.take(further);
    }
    let numbering = Some(places.share());
    take_numbered(conjuncts, arena, &further, &numbering)
}

/// Further conjuncts, with their components numbered anew.
fn take_numbered<'a>(
    conjuncts: &mut Chunked<'a, Conjunct<'a>>,
    arena: &'a Bump,
    further: &Chunked<'a, Conjunct<'a>>,
    places: &Option<Lasting<'a, Items<'a, usize>>>,
) -> Result<(), AllocError>
    ensures { OnOk result (map conjunct_of conjuncts.new ≡ map conjunct_of conjuncts.old ++ map (moved (numbering places.now)) (map conjunct_of further.now)) }
{
    for conjunct in further.iter() {
        push_moved(conjuncts, arena, conjunct, places)?;
    }
    Ok(())
}

/// One further conjunct.
#[inline]
fn push_moved<'a>(
    conjuncts: &mut Chunked<'a, Conjunct<'a>>,
    arena: &'a Bump,
    conjunct: &Conjunct<'a>,
    places: &Option<Lasting<'a, Items<'a, usize>>>,
) -> Result<(), AllocError>
    ensures { OnOk result (map conjunct_of conjuncts.new ≡ map conjunct_of conjuncts.old ++ moved (numbering places.now) (conjunct_of conjunct.now) ∷ []) }
{
    conjuncts.push(conjunct.moved(arena, places)?)?;
    Ok(())
}

/// Whether each place is its own number.
pub(crate) fn are_own(places: &[usize]) -> bool
    ensures { IsTrue result → (t : ResolvedTree) → moved (place_in places.now) t ≡ t }
{
    for (place, other) in places.iter().enumerate() {
        if *other != place {
            return false;
        }
    }
    true
}

/// That two components are equal.
#[tactic(auto, using(zf_term::proofs::ResolvedSeen::seen))]
fn equality<'a>(
    arena: &'a Bump,
    span: Span,
    place: usize,
    other: usize,
) -> Result<Conjunct<'a>, AllocError>
    ensures { IfOk result (λ c. conjunct_of c ≡ equality span place other) }
{
    let left = Boxed::new(arena, Resolved::Name(span, Reference::Component(place)))?;
    let right = Resolved::Name(span, Reference::Component(other));
    let links = Items::of(
        arena,
        ResolvedLink {
            relation: Relation::Equal,
            right,
        },
    )?;
    let term = Resolved::Chain(span, left, Boxed::new(arena, links)?);
    Conjunct::of(arena, term)
}
