//! Why a schema has no binding.
ghost use Rattle.std.specs.Prelude.{◌++◌, [], IfOk, length, map};
ghost use Rattle.zf_why.specs.Prelude.{comp_of, conjunct_of, schema_of, IsFinite, environment_of, property, IsNoneOut, HasChosen, OneOf};
ghost use Rattle.zf_walk.specs.{AreDueWithin};
ghost use Rattle.zf_why.specs.{AreAlone, AreEmpty, CanBegin, split_at, Explains, IsCore, RuleOut};

use crate::beside::Beside;
use crate::cause::Cause;
use crate::question::Question;
use crate::setting::Setting;
use crate::telling::{told_alone, told_together};
use bumpalo::Bump;
use std::alloc::{AllocError, Global};
use zf_cores::minimal;
use zf_meaning::Env;
use zf_term::{Conjunct, Flat};

/// Why a schema has no binding in which these values are held.
pub fn why<'s, 'g, 'a>(
    alloc: Global,
    arena: &'a Bump,
    flat: &'s Flat<'a>,
    env: &'s Env<'g, 'a>,
    question: &Question<'s>,
) -> Result<Cause, AllocError>
    requires finite { IsFinite (environment_of env.now).numbers (environment_of env.now).globals (schema_of flat.now) }
    requires due { AreDueWithin (property (environment_of env.now) (schema_of flat.now).conjuncts) (length (schema_of flat.now).comps) }
    requires none_out { IsNoneOut (environment_of env.now) (schema_of flat.now).comps }
    requires none { RuleOut (environment_of env.now) (schema_of flat.now).comps question.now.held.now (schema_of flat.now).conjuncts }
    ensures { IfOk result (Explains (environment_of env.now) (schema_of flat.now) question.now.held.now question.now.details (split_at flat.now.conjuncts)) }
{
    let setting = Setting {
        alloc,
        arena,
        components: flat.components.as_slice(),
        env,
        held: question.held,
        details: question.details,
    };
    let empty = empty_ranges(&setting)?;
    if has_one(&empty) {
        return Ok(Cause::Empty(empty));
    }
    let all = flat.conjuncts.flat()?;
    let alone = all_alone(&setting, all.as_slice())?;
    if has_one(&alone) {
        let each = told_alone(&setting, all.as_slice(), &alone)?;
        return Ok(Cause::Alone(each));
    }
    let core = core(&setting, &[], all.as_slice())?;
    let told = told_together(&setting, all.as_slice(), &core)?;
    Ok(Cause::Together(told))
}

/// Which components have no value.
fn empty_ranges(setting: &Setting<'_, '_, '_>) -> Result<Vec<bool>, AllocError>
    requires { CanBegin (environment_of setting.now.env.now) (map comp_of setting.now.components.now) [] }
    ensures { IfOk result (λ empty. AreEmpty (environment_of setting.now.env.now) (map comp_of setting.now.components.now) setting.now.held.now empty.items) }
{
    let mut empty = Vec::with_capacity(setting.alloc, setting.components.len())?;
    for place in 0..setting.components.len() {
        let has_value = setting.has_value(place)?;
        empty.push(!has_value)?;
    }
    Ok(empty)
}

/// Which conjuncts rule out everything alone.
fn all_alone<'a>(
    setting: &Setting<'_, '_, 'a>,
    conjuncts: &[Conjunct<'a>],
) -> Result<Vec<bool>, AllocError>
    requires { CanBegin (environment_of setting.now.env.now) (map comp_of setting.now.components.now) (map conjunct_of conjuncts.now) }
    ensures { IfOk result (λ alone. AreAlone (environment_of setting.now.env.now) (map comp_of setting.now.components.now) setting.now.held.now (map conjunct_of conjuncts.now) alone.items) }
{
    let mut alone = Vec::with_capacity(setting.alloc, conjuncts.len())?;
    for place in 0..conjuncts.len() {
        let allowed = setting.allows_alone(&conjuncts[place])?;
        alone.push(!allowed)?;
    }
    Ok(alone)
}

/// A minimal set of conjuncts that can't hold together with the given ones.
pub fn core<'t, 's, 'g, 'a>(
    setting: &'t Setting<'s, 'g, 'a>,
    given: &'t [Conjunct<'a>],
    conjuncts: &'t [Conjunct<'a>],
) -> Result<Vec<bool>, AllocError>
    requires begins { CanBegin (environment_of setting.now.env.now) (map comp_of setting.now.components.now) (map conjunct_of given.now ++ map conjunct_of conjuncts.now) }
    requires none { RuleOut (environment_of setting.now.env.now) (map comp_of setting.now.components.now) setting.now.held.now (map conjunct_of given.now ++ map conjunct_of conjuncts.now) }
    ensures { IfOk result (λ chosen. IsCore (environment_of setting.now.env.now) (map comp_of setting.now.components.now) setting.now.held.now (map conjunct_of given.now) (map conjunct_of conjuncts.now) chosen.items) }
{
    let beside = Beside {
        setting,
        given,
        conjuncts,
    };
    minimal(setting.alloc, &beside)
}

fn has_one(chosen: &[bool]) -> bool
    ensures { OneOf (HasChosen chosen.now) (HasChosen chosen.now → ⊥) result }
{
    for place in 0..chosen.len() {
        if chosen[place] {
            return true;
        }
    }
    false
}
