//! The schemas of boxes and of horizontal texts: declarations, and predicates over them.
ghost use Rattle.std.specs.Prelude.{◌≡◌, ◌∷◌, [], IfErr, IfOk, OnOk, map};
ghost use Rattle.zf_schema.specs.Prelude.{decl_of, include, spelling, tree_of, vars, comp_of, globals_of, plain, resolved_of, schema_of, type_of, IsOf, Offends, resolved, scope_of, IfFault, Adds, comp, constrained, IsNext};
ghost use Rattle.zf_tree.specs.declared.operator.Need.TheVariants as needs;
ghost use Rattle.zf_sorts.specs.Rules as rules;
ghost use Rattle.zf_schema.specs.{AddsAll, CantAdd, CantConstrain, CantDeclare, CantTake, Constrains, ConstrainsOne, Declares, DeclaresOne, IsText, OffendsConjuncts, OffendsDecls, OffendsNames, OffendsPredicates, OffendsText, over, TakesAll};
ghost use Rattle.zf_term.specs.Shapes as shape;

use crate::reference::referred;
use crate::stop::refusal;
use bumpalo::Bump;
use bumpalo::collections::into_bump_slice;
use std::alloc::AllocError;
use zf_calculus::{COMPONENTS_MAX, CONJUNCTS_MAX, Growing, Spare};
use zf_data::arena::{Boxed, Chunked, Items, Lasting, Shared};
use zf_sorts::Refusal;
use zf_term::{Component, Conjunct, Domain, Globals, Measured, Resolved, ZType};
use zf_tree::{Decl, Name, Need, SchemaRef, Term};
use zf_typing::judge::judge;
use zf_typing::{Judged, Locals, Scope, push_conjuncts};

/// The schema of these declarations, and then of these predicates over them.
pub fn text_of<'a>(
    arena: &'a Bump,
    globals: &Globals<'a>,
    decls: &[Decl<'a>],
    predicates: &[Boxed<'a, Term<'a>>],
) -> Result<Measured<'a>, Refusal<'a>>
    ensures ok { IfOk result (λ f. IsText (globals_of globals.now) (map decl_of decls.now) (map tree_of predicates.now) (schema_of f)) }
    ensures wrong { IfErr result (λ e. IfFault e (OffendsText (globals_of globals.now) (map decl_of decls.now) (map tree_of predicates.now))) }
{
    Ok(growing_text(arena, globals, decls, predicates)?.measured())
}

/// The same schema, which may grow.
pub fn growing_text<'a>(
    arena: &'a Bump,
    globals: &Globals<'a>,
    decls: &[Decl<'a>],
    predicates: &[Boxed<'a, Term<'a>>],
) -> Result<Growing<'a>, Refusal<'a>>
    ensures ok { IfOk result (λ g. IsText (globals_of globals.now) (map decl_of decls.now) (map tree_of predicates.now) (schema_of g)) }
    ensures wrong { IfErr result (λ e. IfFault e (OffendsText (globals_of globals.now) (map decl_of decls.now) (map tree_of predicates.now))) }
{
    let spare = expected(decls, predicates);
    let mut growing = Growing::with_room(arena, own_room(decls, spare))?;
    declare_all(arena, globals, &mut growing, decls, spare)?;
    constrain_all(arena, globals, &mut growing, predicates)?;
    Ok(growing)
}

/// What is expected beside the schemas that are taken in, within the limits: a component for each name that is declared, and a conjunct
/// for each predicate.
fn expected(decls: &[Decl<'_>], predicates: &[Boxed<'_, Term<'_>>]) -> Spare {
    let mut components = 0usize;
    for decl in decls {
        if let Decl::Vars(names, _) = decl {
            components = components.saturating_add(names.len());
        }
    }
    Spare {
        components: components.min(COMPONENTS_MAX),
        conjuncts: predicates.len().min(CONJUNCTS_MAX),
    }
}

/// The room at the beginning: none where a schema comes first, which has the room then.
fn own_room(decls: &[Decl<'_>], spare: Spare) -> Spare {
    match decls {
        [Decl::Include(_), ..] => Spare::none(),
        _ => spare,
    }
}

/// Takes in the declarations, one after another.
fn declare_all<'a>(
    arena: &'a Bump,
    globals: &Globals<'a>,
    growing: &mut Growing<'a>,
    decls: &[Decl<'a>],
    spare: Spare,
) -> Result<(), Refusal<'a>>
    ensures ok { OnOk result (Declares (globals_of globals.now) (schema_of growing.old) (map decl_of decls.now) (schema_of growing.new)) }
    ensures wrong { IfErr result (λ e. IfFault e (OffendsDecls (globals_of globals.now) (schema_of growing.old) (map decl_of decls.now))) }
{
    for decl in decls {
        declare(arena, globals, growing, decl, spare)?;
    }
    Ok(())
}

/// Takes in one declaration.
fn declare<'a>(
    arena: &'a Bump,
    globals: &Globals<'a>,
    growing: &mut Growing<'a>,
    decl: &Decl<'a>,
    spare: Spare,
) -> Result<(), Refusal<'a>>
    ensures ok { OnOk result (DeclaresOne (globals_of globals.now) (schema_of growing.old) (decl_of decl.now) (schema_of growing.new)) }
    ensures wrong { IfErr result (λ e. IfFault e (CantDeclare (globals_of globals.now) (schema_of growing.old) (decl_of decl.now))) }
{
    match decl {
        Decl::Vars(names, set) => {
            declare_names(arena, globals, growing, names.as_slice(), set.get())
        }
        Decl::Include(reference) => include(arena, globals, growing, reference, spare),
    }
}

/// Names that are declared to be in a set.
fn declare_names<'a>(
    arena: &'a Bump,
    globals: &Globals<'a>,
    growing: &mut Growing<'a>,
    names: &[Name<'a>],
    set: &Term<'a>,
) -> Result<(), Refusal<'a>>
    ensures ok { OnOk result (DeclaresOne (globals_of globals.now) (schema_of growing.old) (vars names.now (tree_of set.now)) (schema_of growing.new)) }
    ensures wrong { IfErr result (λ e. IfFault e (CantDeclare (globals_of globals.now) (schema_of growing.old) (vars names.now (tree_of set.now)))) }
{
    let Judged { term, sort } = judge(set, arena, Need::Set, &mut scope_over(globals, &[]))?;
    let Some(ztype) = sort.member() else {
        unreachable!();
    };
    let set = Lasting::new(arena, term)?;
    add_all(arena, growing, names, ztype, &set)
}

/// A schema that is taken in.
fn include<'a>(
    arena: &'a Bump,
    globals: &Globals<'a>,
    growing: &mut Growing<'a>,
    reference: &SchemaRef<'a>,
    spare: Spare,
) -> Result<(), Refusal<'a>>
    ensures ok { OnOk result (DeclaresOne (globals_of globals.now) (schema_of growing.old) (include reference.now) (schema_of growing.new)) }
    ensures wrong { IfErr result (λ e. IfFault e (CantDeclare (globals_of globals.now) (schema_of growing.old) (include reference.now))) }
{
    let other = referred(arena, globals, reference, room_of(growing, spare))?;
    match growing.include(arena, other) {
        Ok(()) => Ok(()),
        Err(stop) => Err(refusal(arena, stop, reference.name.span)),
    }
}

/// The room of a schema that is taken in: none where it is added to what is there.
fn room_of(growing: &Growing<'_>, spare: Spare) -> Spare {
    if growing.is_nothing() {
        spare
    } else {
        Spare::none()
    }
}

/// Names of this type that are declared to be in the set, one after another.
fn add_all<'a>(
    arena: &'a Bump,
    growing: &mut Growing<'a>,
    names: &[Name<'a>],
    ztype: &ZType<'a>,
    set: &Lasting<'a, Resolved<'a>>,
) -> Result<(), Refusal<'a>>
    ensures ok { OnOk result (AddsAll (schema_of growing.old) names.now (type_of ztype.now) (plain (resolved_of set.now)) (schema_of growing.new)) }
    ensures wrong { IfErr result (λ e. IfFault e (OffendsNames (schema_of growing.old) names.now (type_of ztype.now) (plain (resolved_of set.now)))) }
{
    for name in names {
        add(arena, growing, name, ztype, set)?;
    }
    Ok(())
}

/// One name of this type that is declared to be in the set.
fn add<'a>(
    arena: &'a Bump,
    growing: &mut Growing<'a>,
    name: &Name<'a>,
    ztype: &ZType<'a>,
    set: &Lasting<'a, Resolved<'a>>,
) -> Result<(), Refusal<'a>>
    ensures ok { OnOk result (Adds (schema_of growing.old) (comp (spelling name.now) (type_of ztype.now) (plain (resolved_of set.now) ∷ [])) (schema_of growing.new)) }
    ensures wrong { IfErr result (λ e. IfFault e (CantAdd (schema_of growing.old) name.now (type_of ztype.now) (plain (resolved_of set.now)))) }
{
    let component = declared(arena, name, ztype, set)?;
    match growing.add(component) {
        Ok(()) => Ok(()),
        Err(stop) => Err(refusal(arena, stop, name.span)),
    }
}

/// A component of this type that is declared to be in the set.
#[tactic(auto, using(zf_term::proofs::SetsSeen::seen))]
fn declared<'a>(
    arena: &'a Bump,
    name: &Name<'a>,
    ztype: &ZType<'a>,
    set: &Lasting<'a, Resolved<'a>>,
) -> Result<Component<'a>, AllocError>
    ensures { IfOk result (λ c. comp_of c ≡ comp (spelling name.now) (type_of ztype.now) (plain (resolved_of set.now) ∷ [])) }
{
    let name = name.spelled();
    let ztype = ztype.share()?;
    let domains = Shared::new(arena, Chunked::of(arena, Domain::Plain(set.share()))?)?;
    Ok(Component {
        name,
        ztype,
        domains,
    })
}

/// The scope of the globals and these components, where no variable is bound.
#[tactic(auto, unfolding(zf_typing::specs::ScopeViews::scope_of))]
pub fn scope_over<'a, 'b>(
    globals: &'b Globals<'a>,
    components: &'b [Component<'a>],
) -> Scope<'a, 'b>
    ensures { scope_of result ≡ over (globals_of globals.now) (map comp_of components.now) }
{
    Scope {
        globals,
        components,
        locals: Locals::new(globals.allocator()),
    }
}

/// Takes the predicates, one after another.
fn constrain_all<'a>(
    arena: &'a Bump,
    globals: &Globals<'a>,
    growing: &mut Growing<'a>,
    predicates: &[Boxed<'a, Term<'a>>],
) -> Result<(), Refusal<'a>>
    ensures ok { OnOk result (Constrains (globals_of globals.now) (schema_of growing.old) (map tree_of predicates.now) (schema_of growing.new)) }
    ensures wrong { IfErr result (λ e. IfFault e (OffendsPredicates (globals_of globals.now) (schema_of growing.old) (map tree_of predicates.now))) }
{
    for predicate in predicates {
        constrain(arena, globals, growing, predicate)?;
    }
    Ok(())
}

/// Takes one predicate, split at its outermost `\land`.
fn constrain<'a>(
    arena: &'a Bump,
    globals: &Globals<'a>,
    growing: &mut Growing<'a>,
    predicate: &Boxed<'a, Term<'a>>,
) -> Result<(), Refusal<'a>>
    ensures ok { OnOk result (ConstrainsOne (globals_of globals.now) (schema_of growing.old) (tree_of predicate.now) (schema_of growing.new)) }
    ensures wrong { IfErr result (λ e. IfFault e (CantConstrain (globals_of globals.now) (schema_of growing.old) (tree_of predicate.now))) }
{
    let components = growing.flat().components.as_slice();
    let conjuncts = conjuncts_over(arena, globals, components, predicate)?;
    take_all(arena, growing, into_bump_slice(conjuncts.into_vec()))
}

/// The conjuncts of a predicate where the globals and these components are in scope.
fn conjuncts_over<'a>(
    arena: &'a Bump,
    globals: &Globals<'a>,
    components: &[Component<'a>],
    predicate: &Boxed<'a, Term<'a>>,
) -> Result<Items<'a, Resolved<'a>>, Refusal<'a>>
    ensures is { OnOk result (IsOf (over (globals_of globals.now) (map comp_of components.now)) (tree_of predicate.now) rules.predicate) }
    ensures ok { IfOk result (λ ts. map resolved_of ts ≡ shape.conjuncts (resolved (over (globals_of globals.now) (map comp_of components.now)) (tree_of predicate.now))) }
    ensures wrong { IfErr result (λ e. IfFault e (Offends (over (globals_of globals.now) (map comp_of components.now)) needs.Predicate (tree_of predicate.now))) }
{
    let mut scope = scope_over(globals, components);
    let mut conjuncts = Items::new(arena);
    push_conjuncts(predicate.get(), arena, &mut scope, &mut conjuncts)?;
    Ok(conjuncts)
}

/// Takes the conjuncts, one after another.
fn take_all<'a>(
    arena: &'a Bump,
    growing: &mut Growing<'a>,
    conjuncts: &'a [Resolved<'a>],
) -> Result<(), Refusal<'a>>
    ensures ok { OnOk result (TakesAll (schema_of growing.old) (map resolved_of conjuncts.now) (schema_of growing.new)) }
    ensures wrong { IfErr result (λ e. IfFault e (OffendsConjuncts (schema_of growing.old) (map resolved_of conjuncts.now))) }
{
    for conjunct in conjuncts {
        take(arena, growing, conjunct)?;
    }
    Ok(())
}

/// Takes one conjunct.
fn take<'a>(
    arena: &'a Bump,
    growing: &mut Growing<'a>,
    conjunct: &'a Resolved<'a>,
) -> Result<(), Refusal<'a>>
    ensures ok { OnOk result (IsNext (constrained (schema_of growing.old) (resolved_of conjunct.now ∷ [])) (schema_of growing.new)) }
    ensures wrong { IfErr result (λ e. IfFault e (CantTake (schema_of growing.old) (resolved_of conjunct.now))) }
{
    match growing.take(Conjunct::lasting(conjunct)) {
        Ok(()) => Ok(()),
        Err(stop) => Err(refusal(arena, stop, conjunct.span())),
    }
}
