//! The sides of a disjunction of schemas, and their conjuncts.
ghost use Rattle.std.specs.Prelude.{◌≡◌, ◌++◌, ◌∷◌, [], IfOk, OnOk, map};
ghost use Rattle.zf_why.specs.Prelude.{batch_of, conjunct_of, moved, numbering};
ghost use Rattle.zf_why.specs.{AreSides, AreSidesOf, IsThat, moved_side, side_in, side_split, split_of, splits_of};
ghost use Rattle.zf_data.specs.{all_of};

use bumpalo::Bump;
use std::alloc::AllocError;
use zf_data::arena::Items;
use zf_term::{Batch, Conjunct, Places};
use zf_tree::Span;

/// A side of a disjunction of schemas: where its schema expression stands, and its conjuncts.
#[derive(Drop)]
pub struct Disjunct<'a> {
    pub span: Span,
    pub conjuncts: Items<'a, Conjunct<'a>>,
}

/// The sides of a disjunction of schemas, from left to right; of another conjunct none.
#[cycle(sides)]
pub fn sides_of<'a>(
    arena: &'a Bump,
    conjunct: &Conjunct<'a>,
) -> Result<Items<'a, Disjunct<'a>>, AllocError>
    ensures { IfOk result (λ sides. AreSidesOf IsThat (split_of conjunct.now) (conjunct_of conjunct.now) (map side_in sides)) }
{
    match conjunct {
        Conjunct::Term(_, _) => Ok(Items::new(arena)),
        Conjunct::Member(_, _, _) => Ok(Items::new(arena)),
        Conjunct::Either(at, left, right, places) => {
            let mut sides = sides_at(arena, at.left, left.get().as_slice())?;
            let further = sides_at(arena, at.right, right.get().as_slice())?;
            sides.append(further)?;
            moved_sides(arena, sides.as_slice(), places)
        }
    }
}

/// The side that stands there and has these batches, or those that it is split into.
#[cycle(sides)]
fn sides_at<'a>(
    arena: &'a Bump,
    span: Span,
    batches: &[Batch<'a>],
) -> Result<Items<'a, Disjunct<'a>>, AllocError>
    ensures { IfOk result (λ sides. AreSides IsThat (side_split (map splits_of batches.now)) span (all_of (map batch_of batches.now)) (map side_in sides)) }
{
    if batches.len() != 1 {
        return one_side(arena, span, batches);
    }
    let batch = &batches[0];
    let conjuncts = batch.conjuncts.get().as_slice();
    if conjuncts.len() != 1 {
        return one_side(arena, span, batches);
    }
    let sides = sides_of(arena, &conjuncts[0])?;
    if sides.len() == 0 {
        return one_side(arena, span, batches);
    }
    moved_sides(arena, sides.as_slice(), &batch.places)
}

/// The side that stands there and has these batches.
fn one_side<'a>(
    arena: &'a Bump,
    span: Span,
    batches: &[Batch<'a>],
) -> Result<Items<'a, Disjunct<'a>>, AllocError>
    ensures { IfOk result (λ sides. map side_in sides ≡ (span, all_of (map batch_of batches.now)) ∷ []) }
{
    let mut conjuncts = Items::new(arena);
    for batch in batches {
        push_moved(
            arena,
            &mut conjuncts,
            batch.conjuncts.get().as_slice(),
            &batch.places,
        )?;
    }
    Items::of(arena, Disjunct { span, conjuncts })
}

/// The sides, with their components numbered anew.
fn moved_sides<'a>(
    arena: &'a Bump,
    sides: &[Disjunct<'a>],
    places: &Places<'a>,
) -> Result<Items<'a, Disjunct<'a>>, AllocError>
    ensures { IfOk result (λ placed. map side_in placed ≡ map (moved_side (numbering places.now)) (map side_in sides.now)) }
{
    let mut placed = Items::with_room(arena, sides.len())?;
    for side in sides {
        let mut conjuncts = Items::new(arena);
        push_moved(arena, &mut conjuncts, side.conjuncts.as_slice(), places)?;
        placed.push(Disjunct {
            span: side.span,
            conjuncts,
        })?;
    }
    Ok(placed)
}

/// The conjuncts, with their components numbered anew.
fn push_moved<'a>(
    arena: &'a Bump,
    placed: &mut Items<'a, Conjunct<'a>>,
    conjuncts: &[Conjunct<'a>],
    places: &Places<'a>,
) -> Result<(), AllocError>
    ensures { OnOk result (map conjunct_of placed.new ≡ map conjunct_of placed.old ++ map (moved (numbering places.now)) (map conjunct_of conjuncts.now)) }
{
    for conjunct in conjuncts {
        let own = conjunct.moved(arena, places)?;
        placed.push(own)?;
    }
    Ok(())
}
