//! Which bindings are asked for, and which of their components.
ghost use Rattle.std.specs.Prelude.{◌≡◌, IfOk, IfErr};
ghost use Rattle.zf_answers.specs.Prelude.{environment_of, schema_of, AreClear, spellings, HaveClearNames};
ghost use Rattle.zf_answers.specs.{AreHeld, AreNamedIn, IfAnswered, IsChosenBy, shown_in, TellsMisnamed, TellsNoParts};

use crate::held::values_held;
use crate::inquiry::Inquiry;
use crate::named::named_row;
use crate::only::places_named;
use crate::stop::Stop;
use bumpalo::Bump;
use std::alloc::Global;
use zf_data::Word;
use zf_meaning::Env;
use zf_places::schema_at;
use zf_print::Spelling;
use zf_term::Flat;
use zf_value::Value;

/// Components that alone are shown: their places, and a schema of them.
#[derive(Drop)]
pub struct Chosen<'p, 'a> {
    pub places: Vec<usize>,
    pub schema: &'p Flat<'a>,
}

/// The components that alone are shown, if some are; the row of what is shown after which the lines come, if one is named;
/// and the values that are held.
#[derive(Drop)]
pub struct Bounds<'p, 'a> {
    pub chosen: Option<Chosen<'p, 'a>>,
    pub after: Option<Vec<Value>>,
    pub held: Vec<Option<Value>>,
}

/// The components, the row and the values that are asked for. The answer where one of the texts says no such thing.
pub fn bounds_in<'a>(
    inquiry: Inquiry<'_>,
    arena: &'a Bump,
    flat: &Flat<'a>,
    env: &Env<'_, 'a>,
    elements: &[Spelling],
) -> Result<Bounds<'a, 'a>, Stop>
    requires { elements.now ≡ spellings (environment_of env.now).globals }
    ensures named { IfOk result (AreNamedIn (environment_of env.now) (schema_of flat.now).comps inquiry.entry.request.now) }
    ensures held { IfOk result (λ b. AreHeld (environment_of env.now) (schema_of flat.now).comps inquiry.entry.request.now.held b.held.items) }
    ensures stop { IfErr result (λ s. AreClear elements.now (environment_of env.now).sizes → HaveClearNames (schema_of flat.now).comps → IfAnswered s (TellsMisnamed (environment_of env.now) (schema_of flat.now).comps inquiry.entry.request.now)) }
{
    let request = inquiry.request;
    let chosen = chosen_in(inquiry.alloc, arena, flat, &request.only)?;
    let lines = shown(flat, &chosen);
    let after = named_row(inquiry, lines, env, elements)?;
    let held = values_held(inquiry, flat, env, elements)?;
    Ok(Bounds {
        chosen,
        after,
        held,
    })
}

/// The schema of what is shown: that of the chosen components, or all.
fn shown<'s, 'a>(flat: &'s Flat<'a>, chosen: &Option<Chosen<'s, 'a>>) -> &'s Flat<'a>
    ensures { (schema_of result.now).comps ≡ shown_in (schema_of flat.now).comps chosen.now }
{
    match chosen {
        None => flat,
        Some(chosen) => chosen.schema,
    }
}

/// The components that alone are shown, if some are.
fn chosen_in<'a>(
    alloc: Global,
    arena: &'a Bump,
    flat: &Flat<'a>,
    only: &Option<Word>,
) -> Result<Option<Chosen<'a, 'a>>, Stop>
    ensures chosen { IfOk result (IsChosenBy (schema_of flat.now).comps only.now) }
    ensures stop { IfErr result (λ s. IfAnswered s (TellsNoParts (schema_of flat.now).comps only.now)) }
{
    let Some(text) = only else {
        return Ok(None);
    };
    let components = flat.components.as_slice();
    let places = places_named(alloc, components, text.as_bytes())?;
    let schema = schema_at(arena, components, &places)?;
    Ok(Some(Chosen { places, schema }))
}
