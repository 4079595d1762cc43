//! The declared sets of bound variables.
ghost use Rattle.std.specs.Prelude.{◌≡◌, ◌++◌, [], IfOk, OnOk, map, replicate};
ghost use Rattle.zf_meaning.specs.Prelude.{range_of, IsAscending, members, AllByRecursion, found_outcome};
ghost use Rattle.zf_term.specs.ResolvedViews as tree;
ghost use Rattle.zf_meaning.specs.RangeSets as spec;
ghost use Rattle.zf_meaning.specs.{declared_of, HaveRanges, scope_of, seen, spread};

use super::outcome;
use crate::env::Env;
use crate::row::Row;
use std::alloc::{AllocError, Global};
use zf_outcome::{Found, Lack};
use zf_term::Range;
use zf_value::{Lent, Value};

/// The declared set of so many variables.
#[derive(Drop)]
pub(crate) struct Spread<'v> {
    pub variables: usize,
    pub set: Lent<'v>,
}

/// The declared sets of variables, of which some may have no value.
#[derive(Drop)]
pub(crate) struct Declared<'v> {
    pub sets: Vec<Spread<'v>>,
    pub lack: Lack,
}

/// The values of the declared sets.
#[cycle(meaning)]
pub(super) fn declared_sets<'v, 'a, R: Row>(
    ranges: &[Range<'a>],
    row: &'v R,
    locals: &[&'v Value],
    env: &'v Env<'_, 'a>,
) -> Result<Declared<'v>, AllocError>
    ensures { IfOk result (λ s. HaveRanges (scope_of env.now (R.values row.now) locals.now) (tree.ranges (map range_of ranges.now)) (declared_of s)) }
{
    let mut declared = Declared {
        sets: Vec::new(env.allocator()),
        lack: Lack::Nothing,
    };
    for range in ranges {
        let found = outcome(&range.set, row, locals, env)?;
        add(&mut declared, range.variables, found)?;
    }
    Ok(declared)
}

/// Adds the declared set of further variables.
fn add<'v>(
    declared: &mut Declared<'v>,
    variables: usize,
    found: Found<'v>,
) -> Result<(), AllocError>
    ensures { OnOk result (spec.Adds declared.old variables (found_outcome found.entry) declared.new) }
{
    match found {
        Found::Is(set) => declared.sets.push(Spread { variables, set })?,
        Found::Undefined => declared.lack = declared.lack.or_undefined(),
        Found::Out => declared.lack = Lack::Out,
    }
    Ok(())
}

/// The members of the declared set of each variable.
pub(super) fn lists_of<'w>(
    alloc: Global,
    sets: &'w [Spread<'_>],
) -> Result<Vec<&'w [Value]>, AllocError>
    ensures is { IfOk result (λ lists. seen lists.items ≡ map members (spread sets.now)) }
    ensures ascending { IfOk result (λ lists. AllByRecursion (λ s. IsAscending (members s)) (spread sets.now)) }
{
    let mut lists = Vec::new(alloc);
    for spread in sets {
        repeat(&mut lists, spread.set.get().members(), spread.variables)?;
    }
    Ok(lists)
}

/// Adds the list so many times.
fn repeat<'w>(
    lists: &mut Vec<&'w [Value]>,
    list: &'w [Value],
    times: usize,
) -> Result<(), AllocError>
    ensures { OnOk result (seen lists.new.items ≡ seen lists.old.items ++ replicate times list.now) }
{
    for _ in 0..times {
        lists.push(list)?;
    }
    Ok(())
}
