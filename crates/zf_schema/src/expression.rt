//! The schemas that schema expressions are.
ghost use Rattle.std.specs.Prelude.{◌≡◌, IfErr, IfOk, map};
ghost use Rattle.zf_schema.specs.Prelude.{decl_of, globals_of, schema_of, sides_span, IfFault, Agree, conjoined, disjoined, IsNext, OneClashes};
ghost use Rattle.zf_tree.specs.TreeViews as tree;
ghost use Rattle.zf_schema.specs.{CantConjoin, IsSchema, OffendsSchema, StopsEither};
ghost use Rattle.zf_schema.specs.SchemaOffences as spec;

use crate::reference::referred;
use crate::stop::{either_span, refusal};
use crate::text::growing_text;
use bumpalo::Bump;
use zf_calculus::{Growing, Spare, disjoin};
use zf_sorts::Refusal;
use zf_term::{Globals, Measured, Sides};
use zf_tree::{Decl, Name, SchemaExp, Span};

/// The schema that the expression is.
pub fn schema_of_expression<'a>(
    exp: &SchemaExp<'a>,
    arena: &'a Bump,
    globals: &Globals<'a>,
) -> Result<Measured<'a>, Refusal<'a>>
    ensures ok { IfOk result (λ f. IsSchema (globals_of globals.now) (tree.schema_tree_of exp.now) (schema_of f)) }
    ensures wrong { IfErr result (λ e. IfFault e (OffendsSchema (globals_of globals.now) (tree.schema_tree_of exp.now))) }
{
    Ok(growing_schema(exp, arena, globals)?.measured())
}

/// The same schema, which may grow.
#[tactic(auto, using(zf_tree::proofs::SchemaSeen::seen))]
fn growing_schema<'a>(
    exp: &SchemaExp<'a>,
    arena: &'a Bump,
    globals: &Globals<'a>,
) -> Result<Growing<'a>, Refusal<'a>>
    ensures ok { IfOk result (λ g. IsSchema (globals_of globals.now) (tree.schema_tree_of exp.now) (schema_of g)) }
    ensures wrong { IfErr result (λ e. IfFault e (OffendsSchema (globals_of globals.now) (tree.schema_tree_of exp.now))) }
{
    match exp {
        SchemaExp::Text(_, decls, predicates) => growing_text(
            arena,
            globals,
            decls.as_slice(),
            predicates.as_slice(),
        ),
        SchemaExp::Ref(_, reference) => referred(arena, globals, reference, Spare::none()),
        SchemaExp::Both(_, left, right) => {
            let of_left = growing_schema(left.get(), arena, globals)?;
            let of_right = growing_schema(right.get(), arena, globals)?;
            conjunction(arena, name_span(right.get()), of_left, of_right)
        }
        SchemaExp::Or(_, left, right) => {
            let of_left = growing_schema(left.get(), arena, globals)?;
            let of_right = growing_schema(right.get(), arena, globals)?;
            let sides = Sides {
                left: left.get().span(),
                right: right.get().span(),
            };
            disjunction(arena, sides, name_span(right.get()), &of_left, &of_right)
        }
        SchemaExp::Bracket(_, inner) => growing_schema(inner.get(), arena, globals),
    }
}

/// The conjunction of two schemas, with the place of the first name of the right one.
fn conjunction<'a>(
    arena: &'a Bump,
    span: Span,
    left: Growing<'a>,
    right: Growing<'a>,
) -> Result<Growing<'a>, Refusal<'a>>
    ensures agree { IfOk result (λ g. Agree (schema_of left.entry).comps (schema_of right.entry).comps) }
    ensures ok { IfOk result (λ g. IsNext (conjoined (schema_of left.entry) (schema_of right.entry)) (schema_of g)) }
    ensures wrong { IfErr result (λ e. IfFault e (CantConjoin span (schema_of left.entry) (schema_of right.entry))) }
{
    let mut whole = left;
    match whole.include(arena, right) {
        Ok(()) => Ok(whole),
        Err(stop) => Err(refusal(arena, stop, span)),
    }
}

/// The disjunction of two schemas, with their places and that of the first name of the right one.
fn disjunction<'a>(
    arena: &'a Bump,
    sides: Sides,
    name: Span,
    left: &Growing<'a>,
    right: &Growing<'a>,
) -> Result<Growing<'a>, Refusal<'a>>
    ensures agree { IfOk result (λ g. Agree (schema_of left.now).comps (schema_of right.now).comps) }
    ensures ok { IfOk result (λ g. IsNext (disjoined (sides_span sides) (schema_of left.now) (schema_of right.now)) (schema_of g)) }
    ensures wrong { IfErr result (λ e. IfFault e (StopsEither (OneClashes (schema_of left.now).comps (schema_of right.now).comps) (Agree (schema_of left.now).comps (schema_of right.now).comps) (disjoined (sides_span sides) (schema_of left.now) (schema_of right.now)) (sides_span sides) name)) }
{
    match disjoin(arena, sides, left.flat(), right.flat()) {
        Ok(growing) => Ok(growing),
        Err(stop) => {
            let span = either_span(&stop, sides.span(), name);
            Err(refusal(arena, stop, span))
        }
    }
}

/// Where the first name stands.
#[tactic(auto, using(zf_tree::proofs::SchemaSeen::seen))]
fn name_span(exp: &SchemaExp<'_>) -> Span
    ensures { result ≡ spec.name_span (tree.schema_tree_of exp.now) }
{
    match exp {
        SchemaExp::Text(span, decls, _) => decls_span(*span, decls.as_slice()),
        SchemaExp::Ref(_, reference) => reference.name.span,
        SchemaExp::Both(_, left, _) => name_span(left.get()),
        SchemaExp::Or(_, left, _) => name_span(left.get()),
        SchemaExp::Bracket(_, inner) => name_span(inner.get()),
    }
}

/// Where the first name of declarations stands; where there is none, the whole.
fn decls_span(whole: Span, decls: &[Decl<'_>]) -> Span
    ensures { result ≡ spec.decls_span whole (map decl_of decls.now) }
{
    match decls {
        [] => whole,
        [first, ..] => match first {
            Decl::Vars(names, _) => names_span(whole, names.as_slice()),
            Decl::Include(reference) => reference.name.span,
        },
    }
}

fn names_span(whole: Span, names: &[Name<'_>]) -> Span
    ensures { result ≡ spec.names_span whole names.now }
{
    match names {
        [] => whole,
        [name, ..] => name.span,
    }
}
