//! Which quantifiers are worth writing out.
use zf_data::arena::{Boxed, Items};
use zf_lift::rows_of;
use zf_meaning::Env;
use zf_reference::Reference;
use zf_term::{Links, Part, Range, Resolved, Terms};

/// The most rows of a quantifier that is written out.
const MOST_ROWS: usize = 256;

/// The most nodes of what a quantifier comes to, with those inside it written out too.
const MOST_NODES: usize = 16384;

/// The most nodes for each row of what is as well tested at once.
const MOST_PLAIN: usize = 6;

/// How many nodes a term comes to, and the first and the last component that it names, by their places from 1.
#[derive(Clone, Copy)]
struct Weight {
    nodes: usize,
    first: usize,
    last: usize,
}

/// Whether a quantifier goes over few rows, and gains by being tested part by part: it names two components, or the first alone and is more than a relation.
pub(crate) fn is_worth<'a>(term: &Resolved<'a>, env: &Env<'_, 'a>) -> bool {
    let Resolved::Quantified(_, _, variables, _, _) = term else {
        return false;
    };
    let rows = rows_of(variables.as_slice(), env, MOST_ROWS);
    if rows == 0 || rows > MOST_ROWS {
        return false;
    }
    let none = Weight {
        nodes: 0,
        first: usize::MAX,
        last: 0,
    };
    let found = weighed(term, 1, env, none);
    found.nodes <= MOST_NODES && gains(found, MOST_PLAIN * rows)
}

fn gains(found: Weight, plain: usize) -> bool {
    found.first < found.last || (found.last == 1 && found.nodes > plain)
}

/// How often the body of a quantifier may be written out.
fn written_out<'a>(variables: &[Range<'a>], env: &Env<'_, 'a>) -> usize {
    let rows = rows_of(variables, env, MOST_ROWS);
    if rows <= MOST_ROWS { rows.max(1) } else { 1 }
}

/// What is found in so many copies of a term beside what was found before.
#[cycle(weighed)]
fn weighed<'a>(term: &Resolved<'a>, copies: usize, env: &Env<'_, 'a>, found: Weight) -> Weight {
    let found = Weight {
        nodes: found.nodes.saturating_add(copies),
        first: found.first,
        last: found.last,
    };
    match term {
        Resolved::Name(_, reference) => with_name(*reference, found),
        Resolved::Number(_, _) => found,
        Resolved::Constant(_, _) => found,
        Resolved::EmptySet(_, of) => weighed(of.get(), copies, env, found),
        Resolved::Bracket(_, inner) => weighed(inner.get(), copies, env, found),
        Resolved::Listed(_, _, items) => weighed_terms(items, copies, env, found),
        Resolved::Comprehension(_, variables, filter, term) => {
            let found = weighed_ranges(variables, copies, env, found);
            let found = weighed_part(filter, copies, env, found);
            weighed_part(term, copies, env, found)
        }
        Resolved::Unary(_, _, of) => weighed(of.get(), copies, env, found),
        Resolved::Binary(_, _, left, right) => {
            let found = weighed(left.get(), copies, env, found);
            weighed(right.get(), copies, env, found)
        }
        Resolved::Chain(_, first, further) => {
            let found = weighed(first.get(), copies, env, found);
            weighed_links(further, copies, env, found)
        }
        Resolved::Quantified(_, _, variables, constraint, body) => {
            let found = weighed_ranges(variables, copies, env, found);
            let copies = copies.saturating_mul(written_out(variables.as_slice(), env));
            let found = weighed_part(constraint, copies, env, found);
            weighed(body.get(), copies, env, found)
        }
    }
}

#[cycle(weighed)]
fn weighed_terms<'a>(items: &Terms<'a>, copies: usize, env: &Env<'_, 'a>, found: Weight) -> Weight {
    let mut all = found;
    for term in items.as_slice() {
        all = weighed(term, copies, env, all);
    }
    all
}

#[cycle(weighed)]
fn weighed_links<'a>(
    further: &Links<'a>,
    copies: usize,
    env: &Env<'_, 'a>,
    found: Weight,
) -> Weight {
    let mut all = found;
    for link in further.as_slice() {
        all = weighed(&link.right, copies, env, all);
    }
    all
}

#[cycle(weighed)]
fn weighed_ranges<'a>(
    variables: &Boxed<'a, Items<'a, Range<'a>>>,
    copies: usize,
    env: &Env<'_, 'a>,
    found: Weight,
) -> Weight {
    let mut all = found;
    for range in variables.as_slice() {
        all = weighed(&range.set, copies, env, all);
    }
    all
}

#[cycle(weighed)]
fn weighed_part<'a>(part: &Part<'a>, copies: usize, env: &Env<'_, 'a>, found: Weight) -> Weight {
    match part.get() {
        None => found,
        Some(term) => weighed(term.get(), copies, env, found),
    }
}

/// With a component that is named.
fn with_name(reference: Reference, found: Weight) -> Weight {
    match reference {
        Reference::Component(place) => {
            let place = place.saturating_add(1);
            Weight {
                nodes: found.nodes,
                first: found.first.min(place),
                last: found.last.max(place),
            }
        }
        Reference::Local(_) => found,
        Reference::Global(_) => found,
    }
}
