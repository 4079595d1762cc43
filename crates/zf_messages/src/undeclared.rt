//! A component that nothing bounds, since a schema on one side of a disjunction does not declare it.
ghost use Rattle.std.specs.Prelude.{IfOk, IsTrue};
ghost use Rattle.zf_messages.specs.{IsWithout, LacksComponent};
ghost use Rattle.zf_term.specs.{globals_of};

use crate::details::name_at;
use bumpalo::Bump;
use std::alloc::{AllocError, Global};
use zf_finite::is_bounded;
use zf_parse::read_spec;
use zf_scan::TextFaultKind;
use zf_term::{Component, Entry, Globals, component_of, global_of};
use zf_tree::{Decl, Name, Paragraph, RefMark, SchemaExp, SchemaRef, ZBox};

/// A component of a schema, by the places of both.
#[derive(Clone, Copy)]
struct Unbounded {
    schema: usize,
    component: usize,
}

/// Why nothing bounds a component of a schema expression.
#[derive(Clone, Copy)]
enum Cause {
    /// Nothing bounds this component of a schema that the expression refers to.
    Within(Unbounded),
    /// The schema at this place, on one side of a disjunction, does not declare it.
    Undeclared(usize),
}

/// The name of a schema without the component: one side of a disjunction by which the schema is defined. Nothing where
/// the source names none.
pub fn side_without(
    alloc: Global,
    source: &[u8],
    globals: &Globals<'_>,
    schema: &[u8],
    component: &[u8],
) -> Result<Vec<u8>, AllocError>
    ensures { IfOk result (λ side. IsWithout (globals_of globals.now) component.now side.items) }
{
    let trees = Bump::new(alloc);
    match read_spec(alloc, &trees, source) {
        Ok(spec) => side_in(alloc, spec.boxes.as_slice(), globals, schema, component),
        Err(unread) => match unread.fault.kind {
            TextFaultKind::OutOfMemory => Err(AllocError),
            _ => Ok(Vec::new(alloc)),
        },
    }
}

/// The same, in the boxes of the source.
fn side_in(
    alloc: Global,
    boxes: &[ZBox<'_>],
    globals: &Globals<'_>,
    schema: &[u8],
    component: &[u8],
) -> Result<Vec<u8>, AllocError>
    ensures { IfOk result (λ side. IsWithout (globals_of globals.now) component.now side.items) }
{
    match place_without(boxes, globals, schema, component) {
        Some(place) => name_without(alloc, globals, place, component),
        None => Ok(Vec::new(alloc)),
    }
}

/// The place of a schema that does not declare the component of this schema.
fn place_without(
    boxes: &[ZBox<'_>],
    globals: &Globals<'_>,
    schema: &[u8],
    component: &[u8],
) -> Option<usize> {
    let schema = schema_named(globals, schema)?;
    let component = place_in(globals, schema, component)?;
    undeclared_in(boxes, globals, Unbounded { schema, component })
}

/// The name of the schema at this place, if it has no such component.
fn name_without(
    alloc: Global,
    globals: &Globals<'_>,
    place: usize,
    component: &[u8],
) -> Result<Vec<u8>, AllocError>
    ensures { IfOk result (λ side. IsWithout (globals_of globals.now) component.now side.items) }
{
    match globals.in_order(place) {
        Some((name, _)) if lacks(globals, name, component) => Ok(Vec::from_slice(alloc, name)?),
        _ => Ok(Vec::new(alloc)),
    }
}

/// Whether the name is that of a schema without the component.
fn lacks(globals: &Globals<'_>, name: &[u8], component: &[u8]) -> bool
    ensures { IsTrue result → LacksComponent (globals_of globals.now) component.now name.now }
{
    match global_of(globals, name) {
        Some((_, Entry::Schema(schema))) => {
            component_of(schema.flat().components.as_slice(), component).is_none()
        }
        _ => false,
    }
}

/// The place of the schema of the name.
fn schema_named(globals: &Globals<'_>, name: &[u8]) -> Option<usize> {
    match global_of(globals, name) {
        Some((place, Entry::Schema(_))) => Some(place),
        _ => None,
    }
}

/// The place of a schema that does not declare the component, from this one on.
fn undeclared_in(boxes: &[ZBox<'_>], globals: &Globals<'_>, first: Unbounded) -> Option<usize> {
    let mut next = first;
    for _ in 0..globals.len() {
        match cause_of(boxes, globals, next)? {
            Cause::Undeclared(side) => return Some(side),
            Cause::Within(other) => next = other,
        }
    }
    None
}

/// Why nothing bounds the component, by the definition of its schema.
fn cause_of(boxes: &[ZBox<'_>], globals: &Globals<'_>, at: Unbounded) -> Option<Cause> {
    let component = component_at(globals, at)?.name.as_slice();
    cause_in_boxes(globals, boxes, name_at(globals, at.schema), component)
}

/// The component at these places.
fn component_at<'g, 'a>(globals: &'g Globals<'a>, at: Unbounded) -> Option<&'g Component<'a>> {
    components_at(globals, at.schema)?.get(at.component)
}

/// The components of the schema at a place.
fn components_at<'g, 'a>(globals: &'g Globals<'a>, place: usize) -> Option<&'g [Component<'a>]> {
    match globals.in_order(place) {
        Some((_, Entry::Schema(schema))) => Some(schema.flat().components.as_slice()),
        _ => None,
    }
}

/// Why nothing bounds the component, if one of the boxes defines the schema.
fn cause_in_boxes(
    globals: &Globals<'_>,
    boxes: &[ZBox<'_>],
    schema: &[u8],
    component: &[u8],
) -> Option<Cause> {
    for item in boxes {
        if let Some(cause) = cause_in_box(globals, item, schema, component) {
            return Some(cause);
        }
    }
    None
}

/// The same, if the box defines the schema.
fn cause_in_box(
    globals: &Globals<'_>,
    item: &ZBox<'_>,
    schema: &[u8],
    component: &[u8],
) -> Option<Cause> {
    match item {
        ZBox::Zed(paragraphs) => {
            cause_in_paragraphs(globals, paragraphs.as_slice(), schema, component)
        }
        ZBox::SchemaBox(name, decls, _) if is_spelled(name, schema) => {
            cause_in_decls(globals, decls.as_slice(), component)
        }
        ZBox::SchemaBox(_, _, _) => None,
    }
}

/// The same, if one of the paragraphs defines the schema.
fn cause_in_paragraphs(
    globals: &Globals<'_>,
    paragraphs: &[Paragraph<'_>],
    schema: &[u8],
    component: &[u8],
) -> Option<Cause> {
    for paragraph in paragraphs {
        match paragraph {
            Paragraph::Defs(name, exp) if is_spelled(name, schema) => {
                return cause_in_schema(globals, exp, component);
            }
            _ => {}
        }
    }
    None
}

fn is_spelled(name: &Name<'_>, spelling: &[u8]) -> bool {
    name.spelled.as_slice() == spelling
}

/// Why nothing bounds the component of the schema expression.
fn cause_in_schema(globals: &Globals<'_>, exp: &SchemaExp<'_>, component: &[u8]) -> Option<Cause> {
    match exp {
        SchemaExp::Text(_, decls, _) => cause_in_decls(globals, decls.as_slice(), component),
        SchemaExp::Ref(_, reference) => cause_in_reference(globals, reference, component),
        SchemaExp::Bracket(_, inner) => cause_in_schema(globals, inner.get(), component),
        SchemaExp::Both(_, left, right) => {
            let cause = cause_in_schema(globals, left.get(), component);
            cause.or(cause_in_schema(globals, right.get(), component))
        }
        SchemaExp::Or(_, left, right) => {
            let lacking = lacking_side(globals, left.get(), component);
            let lacking = lacking.or(lacking_side(globals, right.get(), component));
            let cause = lacking.or(cause_in_schema(globals, left.get(), component));
            cause.or(cause_in_schema(globals, right.get(), component))
        }
    }
}

/// Why nothing bounds the component that the declarations take from a schema.
fn cause_in_decls(globals: &Globals<'_>, decls: &[Decl<'_>], component: &[u8]) -> Option<Cause> {
    for decl in decls {
        if let Decl::Include(reference) = decl {
            if let Some(cause) = cause_in_reference(globals, reference, component) {
                return Some(cause);
            }
        }
    }
    None
}

/// The component of the schema that is referred to, if nothing bounds it.
fn cause_in_reference(
    globals: &Globals<'_>,
    reference: &SchemaRef<'_>,
    component: &[u8],
) -> Option<Cause> {
    let (schema, component) = referred_to(globals, reference, component)?;
    let component = component?;
    let at = Unbounded { schema, component };
    if is_bounded(None, component_at(globals, at)?.domains.get(), globals) {
        return None;
    }
    Some(Cause::Within(at))
}

// ---- which components there are

/// The side, if it is a schema that does not have the component.
fn lacking_side(globals: &Globals<'_>, side: &SchemaExp<'_>, component: &[u8]) -> Option<Cause> {
    match side {
        SchemaExp::Bracket(_, inner) => lacking_side(globals, inner.get(), component),
        SchemaExp::Ref(_, reference) => match referred_to(globals, reference, component) {
            Some((schema, None)) => Some(Cause::Undeclared(schema)),
            _ => None,
        },
        _ => None,
    }
}

/// The place of the schema that is referred to, and that of its component which has this name there, if it has one.
fn referred_to(
    globals: &Globals<'_>,
    reference: &SchemaRef<'_>,
    name: &[u8],
) -> Option<(usize, Option<usize>)> {
    let schema = schema_named(globals, reference.name.base())?;
    Some((schema, referred(globals, schema, reference, name)))
}

/// The place of the component of the schema at this place that has this name where the schema is referred to so.
fn referred(
    globals: &Globals<'_>,
    schema: usize,
    reference: &SchemaRef<'_>,
    name: &[u8],
) -> Option<usize> {
    let bare = name.strip_suffix(reference.name.strokes())?;
    match place_in(globals, schema, bare) {
        None if !matches!(reference.mark, RefMark::Plain) => {
            place_in(globals, schema, bare.strip_suffix(b"'")?)
        }
        place => place,
    }
}

/// The place of the component of this name in the schema at a place.
fn place_in(globals: &Globals<'_>, schema: usize, name: &[u8]) -> Option<usize> {
    let (place, _) = component_of(components_at(globals, schema)?, name)?;
    Some(place)
}
