//! What a paragraph or box adds to the globals.
ghost use Rattle.std.specs.Prelude.{◌≡◌, ◌<◌, ◌^◌, map, length, take, IfOk, IfErr, OnOk, OnErr};
ghost use Rattle.zf_schema.specs.Prelude.{decl_of, paragraph_of, schema_tree_of, spelling, tree_of, definition_of, globals_of, next_number, Ty, IsOf, Offends, resolved, IfFault, typed};
ghost use Rattle.zf_tree.specs.Trees as text;
ghost use Rattle.zf_tree.specs.TreeViews as text_views;
ghost use Rattle.zf_tree.specs.declared.operator.Need.TheVariants as need;
ghost use Rattle.zf_schema.specs.{a_box, abbreviated, Constructs, Defines, DefinesParagraph, elements, Gives, IsNew, IsTaken, OffendsConstructors, OffendsGiven, OffendsItem, OffendsParagraph, outside, with_global};

use crate::expression::schema_of_expression;
use crate::text::{scope_over, text_of};
use bumpalo::Bump;
use std::alloc::AllocError;
use zf_data::arena::{Boxed, Items, Lent, Shared};
use zf_extent::extent_of;
use zf_sorts::{Offence, Refusal, refused};
use zf_term::{Entry, Globals};
use zf_tree::{Decl, Name, Need, Paragraph, SchemaExp, Term};
use zf_typing::Judged;
use zf_typing::judge::judge;

/// Defines what the paragraph does, or leaves the globals as they were. Keeps the number of the next given set or free type.
pub fn define<'a>(
    arena: &'a Bump,
    globals: &mut Globals<'a>,
    next: &mut usize,
    paragraph: &Paragraph<'a>,
) -> Result<(), Refusal<'a>>
    requires { next.old ≡ next_number (globals_of globals.old) }
    ensures ok { OnOk result (DefinesParagraph (globals_of globals.old) (paragraph_of paragraph.now) (globals_of globals.new)) }
    ensures fault { IfErr result (λ e. IfFault e (λ offence span. OffendsParagraph (globals_of globals.old) (paragraph_of paragraph.now) offence span)) }
    ensures kept { OnErr result (globals_of globals.new ≡ globals_of globals.old) }
    ensures numbered { next.new ≡ next_number (globals_of globals.new) }
{
    let count = globals.len();
    let defined = add(arena, globals, *next, paragraph);
    if defined.is_err() {
        globals.truncate(count);
    } else {
        *next += elements(paragraph);
    }
    defined
}

/// How many given sets and free types it defines.
fn elements(paragraph: &Paragraph<'_>) -> usize
    ensures number { result ≡ elements (paragraph_of paragraph.now) }
    ensures small { result < 2 ^ 63 }
{
    match paragraph {
        Paragraph::Given(names) => names.as_slice().len(),
        Paragraph::Free(_, _) => 1,
        Paragraph::Abbrev(_, _) => 0,
        Paragraph::Defs(_, _) => 0,
    }
}

/// Defines the schema of a box, or leaves the globals as they were.
pub fn define_box<'a>(
    arena: &'a Bump,
    globals: &mut Globals<'a>,
    name: &Name<'a>,
    decls: &[Decl<'a>],
    predicates: &[Boxed<'a, Term<'a>>],
) -> Result<(), Refusal<'a>>
    ensures ok { OnOk result (Defines (globals_of globals.old) (a_box name.now (map decl_of decls.now) (map tree_of predicates.now)) (globals_of globals.new)) }
    ensures fault { IfErr result (λ e. IfFault e (λ offence span. OffendsItem (globals_of globals.old) (a_box name.now (map decl_of decls.now) (map tree_of predicates.now)) offence span)) }
    ensures kept { OnErr result (globals_of globals.new ≡ globals_of globals.old) }
    ensures numbered { next_number (globals_of globals.new) ≡ next_number (globals_of globals.old) }
{
    let spelled = new_name(arena, globals, name)?;
    let schema = text_of(arena, globals, decls, predicates)?;
    globals.define(spelled, Entry::Schema(schema))?;
    Ok(())
}

/// Defines what the paragraph does. A faulty one may define some of its names.
fn add<'a>(
    arena: &'a Bump,
    globals: &mut Globals<'a>,
    next: usize,
    paragraph: &Paragraph<'a>,
) -> Result<(), Refusal<'a>>
    requires number { next ≡ next_number (globals_of globals.old) }
    requires small { next < 2 ^ 63 }
    ensures ok { OnOk result (DefinesParagraph (globals_of globals.old) (paragraph_of paragraph.now) (globals_of globals.new)) }
    ensures fault { IfErr result (λ e. IfFault e (λ offence span. OffendsParagraph (globals_of globals.old) (paragraph_of paragraph.now) offence span)) }
    ensures begun { take (length (globals_of globals.old)) (globals_of globals.new) ≡ globals_of globals.old }
{
    match paragraph {
        Paragraph::Given(names) => add_given(arena, globals, next, names.as_slice()),
        Paragraph::Free(name, names) => add_free(arena, globals, next, name, names.as_slice()),
        Paragraph::Abbrev(name, term) => add_abbreviation(arena, globals, name, term.get()),
        Paragraph::Defs(name, exp) => add_schema(arena, globals, name, exp),
    }
}

fn add_given<'a>(
    arena: &'a Bump,
    globals: &mut Globals<'a>,
    first: usize,
    names: &[Name<'a>],
) -> Result<(), Refusal<'a>>
    requires number { first ≡ next_number (globals_of globals.old) }
    requires small { first < 2 ^ 63 }
    ensures ok { OnOk result (Gives (globals_of globals.old) names.now (globals_of globals.new)) }
    ensures fault { IfErr result (λ e. IfFault e (λ offence span. OffendsGiven (globals_of globals.old) names.now offence span)) }
    ensures begun { take (length (globals_of globals.old)) (globals_of globals.new) ≡ globals_of globals.old }
{
    for (place, name) in names.iter().enumerate() {
        add_name(arena, globals, name, Entry::Given(first + place))?;
    }
    Ok(())
}

fn add_free<'a>(
    arena: &'a Bump,
    globals: &mut Globals<'a>,
    number: usize,
    name: &Name<'a>,
    names: &[Name<'a>],
) -> Result<(), Refusal<'a>>
    requires { number ≡ next_number (globals_of globals.old) }
    ensures ok { OnOk result (DefinesParagraph (globals_of globals.old) (text.free name.now names.now) (globals_of globals.new)) }
    ensures fault { IfErr result (λ e. IfFault e (λ offence span. OffendsParagraph (globals_of globals.old) (text.free name.now names.now) offence span)) }
    ensures begun { take (length (globals_of globals.old)) (globals_of globals.new) ≡ globals_of globals.old }
{
    let constructors = all_spelled(arena, names)?;
    add_name(arena, globals, name, Entry::Free(number, constructors))?;
    add_constructors(arena, globals, number, name, names)
}

fn add_constructors<'a>(
    arena: &'a Bump,
    globals: &mut Globals<'a>,
    number: usize,
    of_type: &Name<'a>,
    names: &[Name<'a>],
) -> Result<(), Refusal<'a>>
    ensures ok { OnOk result (Constructs (globals_of globals.old) number (spelling of_type.now) 0 names.now (globals_of globals.new)) }
    ensures fault { IfErr result (λ e. IfFault e (λ offence span. OffendsConstructors (globals_of globals.old) number (spelling of_type.now) 0 names.now offence span)) }
    ensures begun { take (length (globals_of globals.old)) (globals_of globals.new) ≡ globals_of globals.old }
{
    let type_name = of_type.spelled();
    for (place, name) in names.iter().enumerate() {
        let entry = Entry::Constructor(number, type_name.share(), place);
        add_name(arena, globals, name, entry)?;
    }
    Ok(())
}

fn add_abbreviation<'a>(
    arena: &'a Bump,
    globals: &mut Globals<'a>,
    name: &Name<'a>,
    term: &Term<'a>,
) -> Result<(), Refusal<'a>>
    ensures ok { OnOk result (DefinesParagraph (globals_of globals.old) (text.abbreviation name.now (tree_of term.now)) (globals_of globals.new)) }
    ensures fault { IfErr result (λ e. IfFault e (λ offence span. OffendsParagraph (globals_of globals.old) (text.abbreviation name.now (tree_of term.now)) offence span)) }
    ensures begun { take (length (globals_of globals.old)) (globals_of globals.new) ≡ globals_of globals.old }
{
    let spelled = new_name(arena, globals, name)?;
    let entry = abbreviation_of(arena, globals, term)?;
    globals.define(spelled, entry)?;
    Ok(())
}

fn add_schema<'a>(
    arena: &'a Bump,
    globals: &mut Globals<'a>,
    name: &Name<'a>,
    exp: &SchemaExp<'a>,
) -> Result<(), Refusal<'a>>
    ensures ok { OnOk result (DefinesParagraph (globals_of globals.old) (text.definition name.now (text_views.schema_tree_of exp.now)) (globals_of globals.new)) }
    ensures fault { IfErr result (λ e. IfFault e (λ offence span. OffendsParagraph (globals_of globals.old) (text.definition name.now (text_views.schema_tree_of exp.now)) offence span)) }
    ensures begun { take (length (globals_of globals.old)) (globals_of globals.new) ≡ globals_of globals.old }
{
    let spelled = new_name(arena, globals, name)?;
    let schema = schema_of_expression(exp, arena, globals)?;
    globals.define(spelled, Entry::Schema(schema))?;
    Ok(())
}

/// Defines one name.
fn add_name<'a>(
    arena: &'a Bump,
    globals: &mut Globals<'a>,
    name: &Name<'a>,
    entry: Entry<'a>,
) -> Result<(), Refusal<'a>>
    ensures new { OnOk result (IsNew (globals_of globals.old) name.now) }
    ensures ok { OnOk result (globals_of globals.new ≡ with_global (globals_of globals.old) name.now (definition_of entry.entry)) }
    ensures fault { IfErr result (λ e. IfFault e (λ offence span. IsTaken (globals_of globals.old) name.now offence span)) }
    ensures kept { OnErr result (globals_of globals.new ≡ globals_of globals.old) }
{
    let spelled = new_name(arena, globals, name)?;
    globals.define(spelled, entry)?;
    Ok(())
}

/// The name as spelled, if no global has it.
fn new_name<'a>(
    arena: &'a Bump,
    globals: &Globals<'a>,
    name: &Name<'a>,
) -> Result<Lent<'a>, Refusal<'a>>
    ensures ok { IfOk result (λ t. t ≡ spelling name.now) }
    ensures new { OnOk result (IsNew (globals_of globals.now) name.now) }
    ensures fault { IfErr result (λ e. IfFault e (λ offence span. IsTaken (globals_of globals.now) name.now offence span)) }
{
    let spelled = name.spelled();
    if !globals.is_new(spelled.as_slice()) {
        let offence = Offence::AlreadyDefined(spelled);
        return Err(refused(arena, offence, name.span));
    }
    Ok(spelled)
}

fn all_spelled<'a>(arena: &'a Bump, names: &[Name<'a>]) -> Result<Items<'a, Lent<'a>>, AllocError>
    ensures { IfOk result (λ s. s ≡ map spelling names.now) }
{
    let mut all = Items::new(arena);
    for name in names {
        all.push(name.spelled())?;
    }
    Ok(all)
}

/// The term with its type, as what a name is defined as.
fn abbreviation_of<'a>(
    arena: &'a Bump,
    globals: &Globals<'a>,
    term: &Term<'a>,
) -> Result<Entry<'a>, Refusal<'a>>
    ensures ok { IfOk result (λ e. (t : Ty) × IsOf (outside (globals_of globals.now)) (tree_of term.now) (typed t) × (definition_of e ≡ abbreviated (globals_of globals.now) t (resolved (outside (globals_of globals.now)) (tree_of term.now)))) }
    ensures fault { IfErr result (λ e. IfFault e (λ offence span. Offends (outside (globals_of globals.now)) need.Expression (tree_of term.now) offence span)) }
{
    let Judged { term, sort } = judge(
        term,
        arena,
        Need::Expression,
        &mut scope_over(globals, &[]),
    )?;
    let Some(ztype) = sort.into_type() else {
        unreachable!();
    };
    let extent = extent_of(&term, globals);
    Ok(Entry::Abbrev(ztype, term, extent))
}
