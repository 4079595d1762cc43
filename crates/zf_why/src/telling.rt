//! What is reported of conjuncts that are to blame.
ghost use Rattle.std.specs.Prelude.{◌≡◌, ◌<◌, ◌++◌, ◌∷◌, [], IfOk, false, length, map, slice_set};
ghost use Rattle.zf_why.specs.Prelude.{AllByRecursion, comp_of, conjunct_of, environment_of, chosen_of, resolved_of};
ghost use Rattle.zf_why.specs.{AreAlone, AreBlamed, AreEach, AreOperands, AreSidesOf, AreTold, CanBegin, CanTell, IsCore, IsSide, IsTelling, nothing_beside, others_beside, part_of, RuleOut, side_in, split_at, split_of};

use crate::explaining::core;
use crate::operands::operands_told;
use crate::part::{Part, part_of, shown};
use crate::setting::{Setting, push_chosen};
use crate::sides::{Disjunct, sides_of};
use crate::told::{Operands, Side, Told};
use bumpalo::Bump;
use std::alloc::{AllocError, Global};
use zf_data::arena::{Chunked, Items};
use zf_resolved::conjunct::resolved;
use zf_term::{Conjunct, Resolved};

/// What is reported of the chosen conjuncts, which are those that rule out everything alone.
pub fn told_alone<'a>(
    setting: &Setting<'_, '_, 'a>,
    conjuncts: &[Conjunct<'a>],
    chosen: &[bool],
) -> Result<Vec<Told>, AllocError>
    requires begins { CanBegin (environment_of setting.now.env.now) (map comp_of setting.now.components.now) (map conjunct_of conjuncts.now) }
    requires alone { AreAlone (environment_of setting.now.env.now) (map comp_of setting.now.components.now) setting.now.held.now (map conjunct_of conjuncts.now) chosen.now }
    ensures { IfOk result (λ told. AreTold (environment_of setting.now.env.now) (map comp_of setting.now.components.now) setting.now.held.now setting.now.details nothing_beside (split_at conjuncts.now) (map conjunct_of conjuncts.now) chosen.now told.items) }
{
    let mut told = Vec::new(setting.alloc);
    for place in 0..conjuncts.len() {
        if chosen[place] {
            let one = told_of(setting, &[], &conjuncts[place])?;
            told.push(one)?;
        }
    }
    Ok(told)
}

/// What is reported of the chosen conjuncts, which are a minimal set of those that can't hold together.
pub fn told_together<'a>(
    setting: &Setting<'_, '_, 'a>,
    conjuncts: &[Conjunct<'a>],
    chosen: &[bool],
) -> Result<Vec<Told>, AllocError>
    requires begins { CanBegin (environment_of setting.now.env.now) (map comp_of setting.now.components.now) (map conjunct_of conjuncts.now) }
    requires core { IsCore (environment_of setting.now.env.now) (map comp_of setting.now.components.now) setting.now.held.now [] (map conjunct_of conjuncts.now) chosen.now }
    ensures { IfOk result (λ told. AreTold (environment_of setting.now.env.now) (map comp_of setting.now.components.now) setting.now.held.now setting.now.details (others_beside (map conjunct_of conjuncts.now) chosen.now) (split_at conjuncts.now) (map conjunct_of conjuncts.now) chosen.now told.items) }
{
    let mut told = Vec::new(setting.alloc);
    for place in 0..conjuncts.len() {
        if chosen[place] {
            let others = others(setting, conjuncts, chosen, place)?;
            let one = told_of(&*setting, others.as_slice(), &conjuncts[place])?;
            told.push(one)?;
        }
    }
    Ok(told)
}

/// The chosen conjuncts but the one at a place.
fn others<'a>(
    setting: &Setting<'_, '_, 'a>,
    conjuncts: &[Conjunct<'a>],
    chosen: &[bool],
    place: usize,
) -> Result<Items<'a, Conjunct<'a>>, AllocError>
    requires place { place < length chosen.now }
    requires each { length chosen.now ≡ length conjuncts.now }
    ensures { IfOk result (λ others. others ≡ chosen_of conjuncts.now (slice_set chosen.now place false)) }
{
    let mut rest = Vec::from_slice(setting.alloc, chosen)?;
    rest[place] = false;
    let mut part = Chunked::new(setting.arena);
    push_chosen(&mut part, conjuncts, &rest)?;
    part.flat()
}

/// What is reported of a conjunct that can't hold together with the given ones.
fn told_of<'t, 's, 'g, 'a>(
    setting: &'t Setting<'s, 'g, 'a>,
    given: &'t [Conjunct<'a>],
    conjunct: &Conjunct<'a>,
) -> Result<Told, AllocError>
    requires begins { CanBegin (environment_of setting.now.env.now) (map comp_of setting.now.components.now) (map conjunct_of given.now ++ conjunct_of conjunct.now ∷ []) }
    requires none { RuleOut (environment_of setting.now.env.now) (map comp_of setting.now.components.now) setting.now.held.now (map conjunct_of given.now ++ conjunct_of conjunct.now ∷ []) }
    ensures { IfOk result (λ told. IsTelling (environment_of setting.now.env.now) (map comp_of setting.now.components.now) setting.now.held.now setting.now.details (map conjunct_of given.now) (split_of conjunct.now) (conjunct_of conjunct.now) told) }
{
    let term = resolved(conjunct, setting.arena)?;
    let part = part_of(&term);
    let sides = sides_told(&*setting, &*given, &*conjunct)?;
    let operands = details_told(setting, &term)?;
    Ok(Told {
        part,
        sides,
        operands,
    })
}

/// What its operands come to, where details are asked for.
fn details_told<'a>(
    setting: &Setting<'_, '_, 'a>,
    term: &Resolved<'a>,
) -> Result<Option<Operands>, AllocError>
    ensures { IfOk result (AreOperands (environment_of setting.now.env.now) setting.now.held.now setting.now.details (resolved_of term.now)) }
{
    if !setting.details {
        return Ok(None);
    }
    operands_told(term, setting.held, setting.env)
}

/// Of a disjunction of schemas what is reported of its sides, of another conjunct nothing.
fn sides_told<'t, 's, 'g, 'a>(
    setting: &'t Setting<'s, 'g, 'a>,
    given: &'t [Conjunct<'a>],
    conjunct: &Conjunct<'a>,
) -> Result<Vec<Side>, AllocError>
    requires begins { CanBegin (environment_of setting.now.env.now) (map comp_of setting.now.components.now) (map conjunct_of given.now ++ conjunct_of conjunct.now ∷ []) }
    requires none { RuleOut (environment_of setting.now.env.now) (map comp_of setting.now.components.now) setting.now.held.now (map conjunct_of given.now ++ conjunct_of conjunct.now ∷ []) }
    ensures { IfOk result (λ sides. AreSidesOf (IsSide (environment_of setting.now.env.now) (map comp_of setting.now.components.now) setting.now.held.now (map conjunct_of given.now)) (split_of conjunct.now) (conjunct_of conjunct.now) sides.items) }
{
    let disjuncts = sides_of(setting.arena, conjunct)?;
    each_told(setting, given, disjuncts.as_slice())
}

/// What is reported of each side, none of which can hold together with the given conjuncts.
fn each_told<'t, 's, 'g, 'a>(
    setting: &'t Setting<'s, 'g, 'a>,
    given: &'t [Conjunct<'a>],
    disjuncts: &[Disjunct<'a>],
) -> Result<Vec<Side>, AllocError>
    requires { AllByRecursion (CanTell (environment_of setting.now.env.now) (map comp_of setting.now.components.now) setting.now.held.now (map conjunct_of given.now)) (map side_in disjuncts.now) }
    ensures { IfOk result (λ sides. AreEach (IsSide (environment_of setting.now.env.now) (map comp_of setting.now.components.now) setting.now.held.now (map conjunct_of given.now)) (map side_in disjuncts.now) sides.items) }
{
    let mut sides = Vec::with_capacity(setting.alloc, disjuncts.len())?;
    for disjunct in disjuncts {
        let blamed = blamed(&*setting, &*given, disjunct.conjuncts.as_slice())?;
        sides.push(Side {
            span: disjunct.span,
            blamed,
        })?;
    }
    Ok(sides)
}

/// What a minimal set of the conjuncts is shown by that can't hold together with the given ones.
fn blamed<'t, 's, 'g, 'a>(
    setting: &'t Setting<'s, 'g, 'a>,
    given: &'t [Conjunct<'a>],
    conjuncts: &'t [Conjunct<'a>],
) -> Result<Vec<Part>, AllocError>
    requires begins { CanBegin (environment_of setting.now.env.now) (map comp_of setting.now.components.now) (map conjunct_of given.now ++ map conjunct_of conjuncts.now) }
    requires none { RuleOut (environment_of setting.now.env.now) (map comp_of setting.now.components.now) setting.now.held.now (map conjunct_of given.now ++ map conjunct_of conjuncts.now) }
    ensures { IfOk result (λ parts. AreBlamed (environment_of setting.now.env.now) (map comp_of setting.now.components.now) setting.now.held.now (map conjunct_of given.now) (map conjunct_of conjuncts.now) parts.items) }
{
    let chosen = core(setting, given, conjuncts)?;
    chosen_parts(setting.alloc, setting.arena, conjuncts, &chosen)
}

/// What the chosen conjuncts are shown by.
fn chosen_parts<'a>(
    alloc: Global,
    arena: &'a Bump,
    conjuncts: &[Conjunct<'a>],
    chosen: &[bool],
) -> Result<Vec<Part>, AllocError>
    requires { length chosen.now ≡ length conjuncts.now }
    ensures { IfOk result (λ parts. parts.items ≡ map part_of (chosen_of (map conjunct_of conjuncts.now) chosen.now)) }
{
    let mut parts = Vec::new(alloc);
    for place in 0..conjuncts.len() {
        if chosen[place] {
            let part = shown(arena, &conjuncts[place])?;
            parts.push(part)?;
        }
    }
    Ok(parts)
}
