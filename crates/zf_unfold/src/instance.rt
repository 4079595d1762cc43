//! What a universal quantifier says of each member of its first declared set.
ghost use Rattle.std.specs.Prelude.{◌≡◌, ◌++◌, ◌+◌, ◌<◌, ◌^◌, None, IfOk, OnOk, map};
ghost use Rattle.zf_term.specs.{part_of, range_of, ranges, resolved_of};
ghost use Rattle.zf_unfold.specs.Renaming as spec;
ghost use Rattle.zf_unfold.specs.RenamingViews as views;

use crate::renaming::Renaming;
use bumpalo::Bump;
use std::alloc::AllocError;
use zf_data::arena::{Boxed, Items};
use zf_resolved::{renamed, renamed_part, renamed_range};
use zf_term::{Part, Range, Resolved};
use zf_tree::{Connective, Operator, Quantifier, Span};

/// A universal quantifier: its first range and the others, the constraint and the body.
#[derive(Clone, Copy)]
pub(crate) struct Universal<'t, 'a> {
    pub(crate) span: Span,
    pub(crate) first: &'t Range<'a>,
    pub(crate) others: &'t [Range<'a>],
    pub(crate) constraint: &'t Part<'a>,
    pub(crate) body: &'t Resolved<'a>,
}

/// The conjunction of what it says where its first variable has each of so many names, from this one on.
pub(crate) fn instances<'a>(
    of: &Universal<'_, 'a>,
    arena: &'a Bump,
    count: usize,
    member: usize,
    more: usize,
) -> Result<Resolved<'a>, AllocError>
    requires { member + more < 2 ^ 64 }
    ensures { IfOk result (λ t. resolved_of t ≡ views.instances_of count member more of.now) }
{
    let part = instance(of, arena, count, member)?;
    let Some(fewer) = more.checked_sub(1) else {
        return Ok(part);
    };
    let others = instances(of, arena, count, member + 1, fewer)?;
    let left = Boxed::new(arena, part)?;
    let right = Boxed::new(arena, others)?;
    Ok(Resolved::Binary(of.span, Operator::Connective(Connective::And), left, right))
}

/// What it says where its first variable has this name.
fn instance<'a>(
    of: &Universal<'_, 'a>,
    arena: &'a Bump,
    count: usize,
    member: usize,
) -> Result<Resolved<'a>, AllocError>
    ensures { IfOk result (λ t. resolved_of t ≡ views.instance_of count member of.now) }
{
    let renaming = Renaming {
        count,
        member: Some(member),
    };
    let variables = others(of, arena, count)?;
    if variables.as_slice().is_empty() {
        return implied(of, arena, renaming);
    }
    let variables = Boxed::new(arena, variables)?;
    let constraint = renamed_part(of.constraint, arena, &renaming)?;
    let body = Boxed::new(arena, renamed(of.body, arena, &renaming)?)?;
    Ok(Resolved::Quantified(Quantifier::ForAll, of.span, variables, constraint, body))
}

/// That the constraint implies the body.
fn implied<'a>(
    of: &Universal<'_, 'a>,
    arena: &'a Bump,
    renaming: Renaming,
) -> Result<Resolved<'a>, AllocError>
    ensures { IfOk result (λ t. resolved_of t ≡ spec.implied of.now.span (spec.part_renamed (views.named_by renaming) (part_of of.now.constraint.now)) (spec.renamed (views.named_by renaming) (resolved_of of.now.body.now))) }
{
    let body = renamed(of.body, arena, &renaming)?;
    match of.constraint.get() {
        None => Ok(body),
        Some(constraint) => {
            let left = Boxed::new(arena, renamed(constraint.get(), arena, &renaming)?)?;
            let right = Boxed::new(arena, body)?;
            Ok(Resolved::Binary(
                of.span,
                Operator::Connective(Connective::Implies),
                left,
                right,
            ))
        }
    }
}

/// The ranges without the first variable.
fn others<'a>(
    of: &Universal<'_, 'a>,
    arena: &'a Bump,
    count: usize,
) -> Result<Items<'a, Range<'a>>, AllocError>
    ensures { IfOk result (λ rs. ranges (map range_of rs) ≡ spec.others (spec.ranges_renamed (spec.named count None) (views.ranges_of of.now))) }
{
    let renaming = Renaming {
        count,
        member: None,
    };
    let mut all = Items::with_room(arena, of.others.len().saturating_add(1))?;
    if of.first.variables > 1 {
        let set = renamed(&of.first.set, arena, &renaming)?;
        all.push(Range {
            variables: of.first.variables - 1,
            set,
        })?;
    }
    add_renamed(of.others, arena, renaming, &mut all)?;
    Ok(all)
}

/// Adds these ranges, renamed.
fn add_renamed<'a>(
    variables: &[Range<'a>],
    arena: &'a Bump,
    renaming: Renaming,
    all: &mut Items<'a, Range<'a>>,
) -> Result<(), AllocError>
    ensures { OnOk result (map range_of all.new ≡ map range_of all.old ++ map (spec.range_renamed (views.named_by renaming)) (map range_of variables.now)) }
{
    for range in variables {
        all.push(renamed_range(range, arena, &renaming)?)?;
    }
    Ok(())
}
