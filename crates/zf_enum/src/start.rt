//! Where a search begins.
ghost use Rattle.std.specs.Prelude.{◌≡◌, length, IfOk, IfErr, map};
ghost use Rattle.zf_enum.specs.Prelude.{option_copied, conjunct_of, resolved_of, schema_of, IsFinite, AreDueWithin, HasLength, environment_of, RefusesStart};
ghost use Rattle.zf_enum.specs.{BeginsCounting, portion, property};

use crate::bindings::Bindings;
use crate::conjuncts::Conjuncts;
use crate::property::{Property, dues};
use bumpalo::Bump;
use std::alloc::{AllocError, Global};
use zf_meaning::Env;
use zf_ranges::StartFault;
use zf_ranges::component::ranges;
use zf_resolved::conjunct;
use zf_term::{Conjunct, Flat, Resolved};
use zf_value::Value;

impl<'s, 'e, 'g, 'a> Bindings<'s, 'e, 'g, 'a> {
    /// Stands before the first event of the schema that has the values which are held, by the components' places. Neither they nor the named row need be in the ranges.
    pub fn start(
        alloc: Global,
        arena: &'a Bump,
        flat: &Flat<'a>,
        env: &'e Env<'g, 'a>,
        after: Option<&'s [Value]>,
        held: &[Option<Value>],
    ) -> Result<Bindings<'s, 'e, 'g, 'a>, StartFault>
        requires finite { IsFinite (environment_of env.now).numbers (environment_of env.now).globals (schema_of flat.now) }
        requires named { HasLength (option_copied after) (length (schema_of flat.now).comps) }
        requires due { AreDueWithin (property (environment_of env.now) (schema_of flat.now).conjuncts) (length (schema_of flat.now).comps) }
        ensures begins { IfOk result (λ b. BeginsCounting (environment_of env.now) (schema_of flat.now) (portion (option_copied after.entry) held.now) b) }
        ensures refused { IfErr result (RefusesStart (environment_of env.now) (schema_of flat.now).comps) }
    {
        let ranges = ranges(alloc, flat.components.as_slice(), held, env)?;
        let all = flat.conjuncts.flat()?;
        let conjuncts = resolved(alloc, arena, all.as_slice())?;
        let dues = dues(alloc, &conjuncts)?;
        let property = Property {
            conjuncts: Conjuncts::plain(alloc, conjuncts),
            env,
            dues,
        };
        Ok(Bindings::over(alloc, property, ranges, after)?)
    }
}

/// The terms of the conjuncts, by the places in the schema.
pub fn resolved<'a>(
    alloc: Global,
    arena: &'a Bump,
    conjuncts: &[Conjunct<'a>],
) -> Result<Vec<Resolved<'a>>, AllocError>
    ensures { IfOk result (λ terms. map resolved_of terms.items ≡ map conjunct_of conjuncts.now) }
{
    let mut terms = Vec::with_capacity(alloc, conjuncts.len())?;
    for conjunct in conjuncts {
        terms.push(conjunct::resolved(conjunct, arena)?)?;
    }
    Ok(terms)
}
