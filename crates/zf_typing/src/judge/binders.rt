//! What binds variables: declarations, quantified predicates and comprehensions.
ghost use Rattle.std.specs.Prelude.{◌≡◌, IfOk, IfErr, OnErr, OnOk, List, map};
ghost use Rattle.zf_typing.specs.Prelude.{part_of, Tree, tree_of, var_decl_of, range_of, type_of, IfFault};
ghost use Rattle.zf_tree.specs.Trees as tree;
ghost use Rattle.zf_tree.specs.TreeViews as tree_views;
ghost use Rattle.zf_term.specs.ResolvedViews as kept;
ghost use Rattle.zf_tree.specs.declared.operator.Need.TheVariants as needs;
ghost use Rattle.zf_tree.specs.declared.operator.Need as need;
ghost use Rattle.zf_typing.specs.{Binds, DeclarationsOffend, HasMemberType, IsComprehension, IsPart, IsQuantified, Judges, JudgesPart, resolved_part, resolved_ranges, row_type, scope_of, Var, variable_of, with_variables};
ghost use Rattle.zf_typing.specs.Scopes as spec;

use super::{Judged, Place, judge_boxed, judge_term, made, placed};
use crate::binding::{bind, declare_names, depth, row, unbind};
use crate::locals::Locals;
use crate::scope::Scope;
use bumpalo::Bump;
use std::alloc::AllocError;
use zf_data::arena::{Boxed, Items};
use zf_sorts::{Refusal, Sort};
use zf_term::{Part as ResolvedPart, Range, Resolved, ZType, set_type};
use zf_tree::{Need, Part, Quantifier, Term, VarDecl};

/// The variables that are declared, and the ranges of those declared together.
#[derive(Drop)]
struct Declared<'a> {
    variables: Locals<'a>,
    ranges: Items<'a, Range<'a>>,
}

/// A quantified predicate.
#[cycle(judging)]
#[inline(never)]
pub(super) fn quantified<'a>(
    term: &Term<'a>,
    arena: &'a Bump,
    need: Need,
    scope: &mut Scope<'a, '_>,
) -> Result<Judged<'a>, Refusal<'a>>
    requires { IsQuantified term.now }
    ensures judged { Judges (scope_of scope.old) need (tree_of term.now) result }
    ensures scope { scope_of scope.new ≡ scope_of scope.old }
{
    let Term::Quantified(quantifier, span, decls, constraint, body) = term else {
        unreachable!();
    };
    let span = *span;
    let outside = depth(scope);
    let ranges = declare(decls.as_slice(), arena, scope)?;
    let constraint = judge_part(constraint, arena, Need::Predicate, scope);
    let body = judge_term(body.get(), arena, Need::Predicate, scope);
    unbind(scope, outside);
    with_body(
        arena,
        Place { need, span },
        *quantifier,
        ranges,
        constraint,
        body,
    )
}

/// A comprehension.
#[cycle(judging)]
#[inline(never)]
pub(super) fn comprehension<'a>(
    term: &Term<'a>,
    arena: &'a Bump,
    need: Need,
    scope: &mut Scope<'a, '_>,
) -> Result<Judged<'a>, Refusal<'a>>
    requires { IsComprehension term.now }
    ensures judged { Judges (scope_of scope.old) need (tree_of term.now) result }
    ensures scope { scope_of scope.new ≡ scope_of scope.old }
{
    let Term::Comprehension(span, decls, filter, member) = term else {
        unreachable!();
    };
    let span = *span;
    let outside = depth(scope);
    let ranges = declare(decls.as_slice(), arena, scope)?;
    let filter = judge_part(filter, arena, Need::Predicate, scope);
    let member = judge_part(member, arena, Need::Expression, scope);
    let row = row(arena, scope, outside);
    unbind(scope, outside);
    built(arena, Place { need, span }, ranges, filter, member, row)
}

/// Brings the variables that are declared into scope. What is kept of them are their ranges.
#[cycle(judging)]
fn declare<'a>(
    decls: &[VarDecl<'a>],
    arena: &'a Bump,
    scope: &mut Scope<'a, '_>,
) -> Result<Items<'a, Range<'a>>, Refusal<'a>>
    ensures ok { OnOk result ((vs : List Var) × Binds (scope_of scope.old) (tree_views.var_decls (map var_decl_of decls.now)) vs × (scope_of scope.new ≡ with_variables (scope_of scope.old) vs)) }
    ensures ranges { IfOk result (λ rs. kept.ranges (map range_of rs) ≡ resolved_ranges (scope_of scope.old) (tree_views.var_decls (map var_decl_of decls.now))) }
    ensures wrong { IfErr result (λ e. IfFault e (λ offence span. DeclarationsOffend (scope_of scope.old) (tree_views.var_decls (map var_decl_of decls.now)) offence span)) }
    ensures scope { OnErr result (scope_of scope.new ≡ scope_of scope.old) }
{
    let Declared { variables, ranges } = judge_sets(decls, arena, scope)?;
    bind(scope, variables)?;
    Ok(ranges)
}

/// The declared sets know nothing of the variables.
#[cycle(judging)]
fn judge_sets<'a>(
    decls: &[VarDecl<'a>],
    arena: &'a Bump,
    scope: &mut Scope<'a, '_>,
) -> Result<Declared<'a>, Refusal<'a>>
    ensures ok { IfOk result (λ d. Binds (scope_of scope.old) (tree_views.var_decls (map var_decl_of decls.now)) (map variable_of d.variables)) }
    ensures ranges { IfOk result (λ d. kept.ranges (map range_of d.ranges) ≡ resolved_ranges (scope_of scope.old) (tree_views.var_decls (map var_decl_of decls.now))) }
    ensures wrong { IfErr result (λ e. IfFault e (λ offence span. DeclarationsOffend (scope_of scope.old) (tree_views.var_decls (map var_decl_of decls.now)) offence span)) }
    ensures scope { scope_of scope.new ≡ scope_of scope.old }
{
    let mut variables = Locals::new(scope.locals.allocator());
    let mut ranges = Items::with_room(arena, decls.len())?;
    for decl in decls {
        let Judged { term, sort } = judge_boxed(&decl.set, arena, Need::Set, scope)?;
        declare_names(arena, decl.names.as_slice(), &sort, &mut variables)?;
        ranges.push(Range {
            variables: decl.names.len(),
            set: term,
        })?;
    }
    Ok(Declared { variables, ranges })
}

#[cycle(judging)]
fn judge_part<'a>(
    part: &Part<'a>,
    arena: &'a Bump,
    need: Need,
    scope: &mut Scope<'a, '_>,
) -> Result<Option<Judged<'a>>, Refusal<'a>>
    ensures judged { JudgesPart (scope_of scope.old) need (part_of part.now) result }
    ensures scope { scope_of scope.new ≡ scope_of scope.old }
{
    match part.get() {
        None => Ok(None),
        Some(term) => {
            let judged = judge_term(term.get(), arena, need, scope)?;
            Ok(Some(judged))
        }
    }
}

/// A quantified predicate, of which the parts are judged within its variables.
#[tactic(auto, using(crate::proofs::Judging::from_memory))]
fn with_body<'a>(
    arena: &'a Bump,
    place: Place,
    quantifier: Quantifier,
    ranges: Items<'a, Range<'a>>,
    constraint: Result<Option<Judged<'a>>, Refusal<'a>>,
    body: Result<Judged<'a>, Refusal<'a>>,
) -> Result<Judged<'a>, Refusal<'a>>
    ensures { (s : spec.Scope) (ds : tree.VarDecls) (vs : List Var) (p : tree.Perhaps) (e : Tree) → Binds s ds vs → kept.ranges (map range_of ranges.entry) ≡ resolved_ranges s ds → JudgesPart (with_variables s vs) needs.Predicate p constraint.entry → Judges (with_variables s vs) needs.Predicate e body.entry → Judges s place.need (tree.quantified place.span quantifier ds p e) result }
{
    let constraint = constraint?;
    let body = body?;
    let ranges = Boxed::new(arena, ranges)?;
    let condition = in_box(arena, constraint)?;
    let predicate = Boxed::new(arena, body.term)?;
    placed(
        arena,
        place,
        Sort::Predicate,
        Resolved::Quantified(quantifier, place.span, ranges, condition, predicate),
    )
}

/// A comprehension, of which the parts are judged within its variables. Where it has no term it builds
/// rows of the variables.
#[tactic(auto, using(crate::proofs::Judging::from_memory))]
fn built<'a>(
    arena: &'a Bump,
    place: Place,
    ranges: Items<'a, Range<'a>>,
    filter: Result<Option<Judged<'a>>, Refusal<'a>>,
    member: Result<Option<Judged<'a>>, Refusal<'a>>,
    row: Result<ZType<'a>, AllocError>,
) -> Result<Judged<'a>, Refusal<'a>>
    ensures { (s : spec.Scope) (ds : tree.VarDecls) (vs : List Var) (p e : tree.Perhaps) → Binds s ds vs → kept.ranges (map range_of ranges.entry) ≡ resolved_ranges s ds → JudgesPart (with_variables s vs) needs.Predicate p filter.entry → JudgesPart (with_variables s vs) needs.Expression e member.entry → IfOk row.entry (λ t. type_of t ≡ row_type vs) → Judges s place.need (tree.comprehension place.span ds p e) result }
{
    let filter = filter?;
    let member = member?;
    let rows = row?;
    let element = member_type(&member, rows)?;
    let set = set_type(arena, element)?;
    let ranges = Boxed::new(arena, ranges)?;
    let condition = in_box(arena, filter)?;
    let term = in_box(arena, member)?;
    made(
        arena,
        place,
        Sort::Typed(set),
        Resolved::Comprehension(place.span, ranges, condition, term),
    )
}

/// The term of a part that may be left out.
fn in_box<'a>(arena: &'a Bump, part: Option<Judged<'a>>) -> Result<ResolvedPart<'a>, AllocError>
    ensures { (s : spec.Scope) (n : need.Need) (p : tree.Perhaps) → IsPart s n p part.entry → IfOk result (λ o. kept.part_of o ≡ resolved_part s p) }
{
    let Some(judged) = part else {
        return Boxed::new(arena, None);
    };
    let term = Boxed::new(arena, judged.term)?;
    Boxed::new(arena, Some(term))
}

/// The type of what a comprehension builds: that of its term, where it has one.
fn member_type<'a>(member: &Option<Judged<'a>>, row: ZType<'a>) -> Result<ZType<'a>, AllocError>
    ensures { (s : spec.Scope) (vs : List Var) (p : tree.Perhaps) → IsPart s needs.Expression p member.now → type_of row.entry ≡ row_type vs → IfOk result (λ t. HasMemberType s vs p (type_of t)) }
{
    match member {
        None => Ok(row),
        Some(judged) => match judged.sort.ztype() {
            Some(ztype) => ztype.share(),
            None => Ok(row),
        },
    }
}
