//! References to schemas.
ghost use Rattle.std.specs.Prelude.{◌≡◌, IfErr, IfOk, MatchOption, Some, None};
ghost use Rattle.zf_schema.specs.Prelude.{definition_of, globals_of, schema, schema_of, IfFault, offence_of};
ghost use Rattle.zf_schema.specs.{IsNamed, IsNoSchema, LacksSchema, OffendsRef, Refers};

use crate::stop::refusal;
use bumpalo::Bump;
use zf_calculus::{Growing, Spare, decorate_own, marked};
use zf_sorts::{Offence, Refusal, refused_name};
use zf_term::{Entry, Globals, Measured, global_of};
use zf_tree::{Name, SchemaRef};
use zf_typing::global_like;

/// The schema that is referred to, with room for what is expected of it.
pub fn referred<'a>(
    arena: &'a Bump,
    globals: &Globals<'a>,
    reference: &SchemaRef<'a>,
    spare: Spare,
) -> Result<Growing<'a>, Refusal<'a>>
    ensures ok { IfOk result (λ g. Refers (globals_of globals.now) reference.now (schema_of g)) }
    ensures fault { IfErr result (λ e. IfFault e (OffendsRef (globals_of globals.now) reference.now)) }
{
    let name = &reference.name;
    let schema = match schema_named(globals, name) {
        Ok(schema) => schema,
        Err(offence) => {
            let like = global_like(globals, name.base(), true);
            return Err(refused_name(arena, offence, name.span, like));
        }
    };
    let spare = spare.behind(schema.flat());
    match marked(arena, reference.mark, name.span, schema, spare) {
        Ok(growing) => Ok(decorate_own(arena, name.strokes(), growing)?),
        Err(stop) => Err(refusal(arena, stop, name.span)),
    }
}

/// The schema of the name without its strokes, or what is wrong with the name.
fn schema_named<'a, 'b>(
    globals: &'b Globals<'a>,
    name: &Name<'a>,
) -> Result<&'b Measured<'a>, Offence<'a>>
    ensures ok { IfOk result (λ f. IsNamed (globals_of globals.now) name.now.base (schema_of f.now)) }
    ensures err { IfErr result (λ o. LacksSchema (globals_of globals.now) name.now (offence_of o)) }
{
    let Some((_, entry)) = global_of(globals, name.base()) else {
        return Err(Offence::NotDeclared(name.spelled()));
    };
    match as_schema(entry) {
        Some(schema) => Ok(schema),
        None => Err(Offence::NotASchema(name.spelled())),
    }
}

fn as_schema<'a, 'b>(entry: &'b Entry<'a>) -> Option<&'b Measured<'a>>
    ensures { MatchOption result (IsNoSchema (definition_of entry.now)) (λ f. definition_of entry.now ≡ schema (schema_of f.now)) }
{
    match entry {
        Entry::Schema(schema) => Some(schema),
        Entry::Given(_)
        | Entry::Free(_, _)
        | Entry::Constructor(_, _, _)
        | Entry::Abbrev(_, _, _) => None,
    }
}
