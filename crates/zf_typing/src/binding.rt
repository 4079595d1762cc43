//! Bound variables: how declarations bring them into scope, and how they leave it.
ghost use Rattle.std.specs.Prelude.{◌≡◌, ℕ, IfOk, IfErr, OnOk, OnErr, List, ◌++◌, length, map};
ghost use Rattle.zf_typing.specs.Prelude.{Ty, type_of, IfFault, Meets, set_sort, sort_of, spelling};
ghost use Rattle.zf_tree.specs.declared.tree.Name as program;
ghost use Rattle.zf_tree.specs.declared.operator.Need.TheVariants as needs;
ghost use Rattle.zf_typing.specs.{AreNew, AreRepeated, scope_of, Var, var_type, variable_of, with_variables};
ghost use Rattle.zf_typing.specs.Scopes as spec;
ghost use Rattle.zf_typing.specs.Typing as typing;
ghost use Rattle.zf_term.specs.Faults as faults;
ghost use Rattle.zf_tree.specs.declared.span.Span.{Span};

use crate::locals::Locals;
use crate::scope::{Scope, is_bound};
use crate::variable::Variable;
use bumpalo::Bump;
use std::alloc::AllocError;
use zf_data::arena::Items;
use zf_sorts::{Offence, Refusal, Sort, refused};
use zf_term::{ZType, product_type};
use zf_tree::Name;

/// Adds variables of these names, which are members of a set of this sort.
pub(crate) fn declare_names<'a>(
    arena: &'a Bump,
    names: &[Name<'a>],
    set: &Sort<'a>,
    variables: &mut Locals<'a>,
) -> Result<(), Refusal<'a>>
    requires { Meets needs.Set (sort_of set.now) }
    ensures ok { OnOk result ((u : Ty) × (sort_of set.now ≡ set_sort u) × (map variable_of variables.new ≡ map variable_of variables.old ++ typing.variables names.now u)) }
    ensures apart { OnOk result ((ns : List program.Name) → AreNew (map variable_of variables.new) ns → AreNew (map variable_of variables.old) (names.now ++ ns)) }
    ensures later { OnOk result ((ns : List program.Name) (offence : faults.Offence) (span : Span) → AreRepeated (map variable_of variables.new) ns offence span → AreRepeated (map variable_of variables.old) (names.now ++ ns) offence span) }
    ensures repeated { IfErr result (λ e. IfFault e (λ offence span. (ns : List program.Name) → AreRepeated (map variable_of variables.old) (names.now ++ ns) offence span)) }
{
    let Some(members) = set.member() else {
        unreachable!();
    };
    for name in names {
        let variable = variable(name, members)?;
        if is_bound(variables, variable.name.as_slice()) {
            return Err(refused(arena, Offence::LocalTwice(name.spelled()), name.span));
        }
        variables.push(variable)?;
    }
    Ok(())
}

/// A variable of the name.
fn variable<'a>(name: &Name<'a>, ztype: &ZType<'a>) -> Result<Variable<'a>, AllocError>
    ensures { IfOk result (λ v. variable_of v ≡ record { name = spelling name.now; type = type_of ztype.now }) }
{
    let name = name.spelled();
    let ztype = ztype.share()?;
    Ok(Variable { name, ztype })
}

/// How many variables are bound.
pub(crate) fn depth(scope: &Scope<'_, '_>) -> usize
    ensures { result ≡ length (scope_of scope.now).locals }
{
    scope.locals.len()
}

/// Brings variables into scope, within those that are bound.
pub(crate) fn bind<'a>(scope: &mut Scope<'a, '_>, variables: Locals<'a>) -> Result<(), AllocError>
    ensures ok { OnOk result (scope_of scope.new ≡ with_variables (scope_of scope.old) (map variable_of variables.entry)) }
    ensures err { OnErr result (scope_of scope.new ≡ scope_of scope.old) }
{
    scope.locals.append(variables)
}

/// Leaves in scope the variables that are bound outside.
pub(crate) fn unbind(scope: &mut Scope<'_, '_>, outside: usize)
    ensures { (s : spec.Scope) (vs : List Var) → scope_of scope.old ≡ with_variables s vs → outside ≡ length s.locals → scope_of scope.new ≡ s }
{
    scope.locals.truncate(outside);
}

/// The type of what the variables within make together: that of the one, else that of their tuples.
pub(crate) fn row<'a>(
    arena: &'a Bump,
    scope: &Scope<'a, '_>,
    outside: usize,
) -> Result<ZType<'a>, AllocError>
    ensures { IfOk result (λ t. (s : spec.Scope) (vs : List Var) → scope_of scope.now ≡ with_variables s vs → outside ≡ length s.locals → type_of t ≡ typing.row_type vs) }
{
    let locals = &scope.locals;
    let mut types = Items::new(arena);
    for place in outside..locals.len() {
        types.push(locals.get(place).ztype.share()?)?;
    }
    row_of(arena, types)
}

#[tactic(auto, using(zf_term::proofs::TypesSeen::seen))]
fn row_of<'a>(arena: &'a Bump, types: Items<'a, ZType<'a>>) -> Result<ZType<'a>, AllocError>
    ensures { IfOk result (λ t. (vs : List Var) → map type_of types.entry ≡ map var_type vs → type_of t ≡ typing.row_type vs) }
{
    let mut types = types;
    if types.len() != 1 {
        return product_type(arena, types);
    }
    match types.pop() {
        Some(ztype) => Ok(ztype),
        None => unreachable!(),
    }
}
