//! The checker: what a text defines, and what is wrong with it.
ghost use Rattle.std.specs.Prelude.{◌≡◌, [], map, IfOk, OnOk};
ghost use Rattle.zf_tree.specs.{box_of, boxes_of, decl_of, paragraph_of, tree_of};
ghost use Rattle.zf_term.specs.{globals_of, next_number};
ghost use Rattle.zf_sorts.specs.{fault_of};
ghost use Rattle.zf_schema.specs.{a_box, a_paragraph, IsChecked, items, items_in};
ghost use Rattle.zf_checker.specs.{Notes, RunsOne};
ghost use Rattle.zf_checker.specs.Runs.{Runs};

use bumpalo::Bump;
use std::alloc::{AllocError, Global};
use zf_data::Items;
use zf_data::arena::Boxed;
use zf_schema::{define, define_box};
use zf_sorts::{Refusal, TypeFault};
use zf_term::Globals;
use zf_tree::{Decl, Name, Paragraph, Spec, Term, ZBox};

/// What a text defines, and its faults in order.
#[derive(Drop)]
pub struct Checked<'a> {
    pub globals: Globals<'a>,
    pub faults: Items<TypeFault<'a>>,
}

/// Checks a text. Each paragraph or box that is not well typed has one fault, and defines nothing. What the text defines stands in the
/// arena, and keeps the names of the text.
pub fn check_spec<'a>(
    alloc: Global,
    arena: &'a Bump,
    spec: &Spec<'a>,
) -> Result<Checked<'a>, AllocError>
    ensures { IfOk result (λ c. IsChecked (boxes_of spec.now) (globals_of c.globals) (map fault_of c.faults)) }
{
    let globals = Globals::with_room(alloc, spec.boxes.len())?;
    let mut checked = Checked {
        globals,
        faults: Items::new(alloc),
    };
    let mut next = 0;
    check_boxes(arena, &mut checked, &mut next, spec.boxes.as_slice())?;
    Ok(checked)
}

/// Checks boxes, one after another. As all that follow it keeps the number of the next given set or free type.
fn check_boxes<'a>(
    arena: &'a Bump,
    checked: &mut Checked<'a>,
    next: &mut usize,
    boxes: &[ZBox<'a>],
) -> Result<(), AllocError>
    requires { next.old ≡ next_number (globals_of checked.old.globals) }
    ensures runs { OnOk result (Runs checked.old (items (map box_of boxes.now)) checked.new) }
    ensures numbered { next.new ≡ next_number (globals_of checked.new.globals) }
{
    for each in boxes {
        check_box(arena, checked, next, each)?;
    }
    Ok(())
}

fn check_box<'a>(
    arena: &'a Bump,
    checked: &mut Checked<'a>,
    next: &mut usize,
    each: &ZBox<'a>,
) -> Result<(), AllocError>
    requires { next.old ≡ next_number (globals_of checked.old.globals) }
    ensures runs { OnOk result (Runs checked.old (items_in (box_of each.now)) checked.new) }
    ensures numbered { next.new ≡ next_number (globals_of checked.new.globals) }
{
    match each {
        ZBox::Zed(paragraphs) => check_paragraphs(arena, checked, next, paragraphs.as_slice()),
        ZBox::SchemaBox(name, decls, predicates) => {
            check_schema_box(
                arena,
                checked,
                name,
                decls.as_slice(),
                predicates.as_slice(),
            )
        }
    }
}

fn check_paragraphs<'a>(
    arena: &'a Bump,
    checked: &mut Checked<'a>,
    next: &mut usize,
    paragraphs: &[Paragraph<'a>],
) -> Result<(), AllocError>
    requires { next.old ≡ next_number (globals_of checked.old.globals) }
    ensures runs { OnOk result (Runs checked.old (map a_paragraph (map paragraph_of paragraphs.now)) checked.new) }
    ensures numbered { next.new ≡ next_number (globals_of checked.new.globals) }
{
    for paragraph in paragraphs {
        check_paragraph(arena, checked, next, paragraph)?;
    }
    Ok(())
}

fn check_paragraph<'a>(
    arena: &'a Bump,
    checked: &mut Checked<'a>,
    next: &mut usize,
    paragraph: &Paragraph<'a>,
) -> Result<(), AllocError>
    requires { next.old ≡ next_number (globals_of checked.old.globals) }
    ensures runs { OnOk result (RunsOne checked.old (a_paragraph (paragraph_of paragraph.now)) checked.new) }
    ensures numbered { next.new ≡ next_number (globals_of checked.new.globals) }
{
    let defined = define(arena, &mut checked.globals, next, paragraph);
    note(&mut checked.faults, defined)
}

/// Checks a schema box, which defines no type.
fn check_schema_box<'a>(
    arena: &'a Bump,
    checked: &mut Checked<'a>,
    name: &Name<'a>,
    decls: &[Decl<'a>],
    predicates: &[Boxed<'a, Term<'a>>],
) -> Result<(), AllocError>
    ensures runs { OnOk result (RunsOne checked.old (a_box name.now (map decl_of decls.now) (map tree_of predicates.now)) checked.new) }
    ensures numbered { next_number (globals_of checked.new.globals) ≡ next_number (globals_of checked.old.globals) }
{
    let defined = define_box(arena, &mut checked.globals, name, decls, predicates);
    note(&mut checked.faults, defined)
}

/// Puts the fault, if there is one, after the others.
fn note<'a>(
    faults: &mut Items<TypeFault<'a>>,
    defined: Result<(), Refusal<'a>>,
) -> Result<(), AllocError>
    ensures { OnOk result (Notes defined.entry faults.old faults.new) }
{
    match defined {
        Ok(()) => Ok(()),
        Err(Refusal::Fault(fault)) => faults.push(fault.get().share()),
        Err(Refusal::OutOfMemory) => Err(AllocError),
    }
}
