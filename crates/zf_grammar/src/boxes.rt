//! The rules of boxes and of a whole text.
ghost use Rattle.std.specs.Prelude.{◌≤◌};
ghost use Rattle.zf_grammar.specs.BoxReading as spec;
ghost use Rattle.zf_grammar.specs.{Gives};

use crate::cursor::Cursor;
use crate::decls::{decls, predicates};
use crate::items::items;
use crate::paragraphs::ParagraphRule;
use bumpalo::Bump;
use std::alloc::Global;
use zf_data::Items;
use zf_scan::{Mark, Next, TextFault};
use zf_tree::ZBox;

/// A box has mostly more symbols. Where a text has many smaller ones, the list of its boxes grows as it goes.
const SYMBOLS_OF_A_BOX: usize = 5;

/// A `zed` box, after its opening.
#[tactic(auto, unfolding(crate::specs::BoxReading::read_zed))]
fn zed<'a>(
    arena: &'a Bump,
    tokens: &mut Cursor<'a, '_>,
    highest: u32,
) -> Result<ZBox<'a>, TextFault>
    requires { highest ≤ 1000 }
    ensures { Gives (spec.read_zed highest tokens.old) result tokens.new }
{
    let paragraphs = items(
        arena,
        tokens,
        Mark::Separator,
        &ParagraphRule { arena, highest },
    )?;
    tokens.expect(Mark::EndBox)?;
    Ok(ZBox::Zed(paragraphs.part))
}

/// A schema box. One with generic parameters is not read.
#[tactic(auto, unfolding(crate::specs::BoxReading::read_schema_box))]
fn schema_box<'a>(
    arena: &'a Bump,
    tokens: &mut Cursor<'a, '_>,
    highest: u32,
) -> Result<ZBox<'a>, TextFault>
    requires { highest ≤ 1000 }
    ensures { Gives (spec.read_schema_box highest tokens.old) result tokens.new }
{
    let name = tokens.opening()?;
    if tokens.is_at(Mark::OpenSquare) {
        let span = tokens.span();
        tokens.skip();
        return Err(TextFault::not_in_profile(span));
    }
    let decls = decls(arena, tokens, highest)?;
    let predicates = predicates(arena, tokens, highest, Mark::Where)?;
    tokens.expect(Mark::EndBox)?;
    Ok(ZBox::SchemaBox(name, decls.part, predicates.part))
}

#[tactic(auto, unfolding(crate::specs::BoxReading::read_box))]
fn one_box<'a>(
    arena: &'a Bump,
    tokens: &mut Cursor<'a, '_>,
    highest: u32,
) -> Result<ZBox<'a>, TextFault>
    requires { highest ≤ 1000 }
    ensures { Gives (spec.read_box highest tokens.old) result tokens.new }
{
    match tokens.peek() {
        Next::BeginZed => {
            tokens.skip();
            zed(arena, tokens, highest)
        }
        _ => schema_box(arena, tokens, highest),
    }
}

/// All boxes.
#[tactic(auto, using(std::proofs::lemmas::Grind::common_steps, crate::proofs::Turns::boxes_turn, crate::proofs::Turns::boxes_end), unfolding(crate::specs::BoxReading::read_boxes))]
fn boxes<'a>(
    alloc: Global,
    arena: &'a Bump,
    tokens: &mut Cursor<'a, '_>,
    highest: u32,
) -> Result<Items<ZBox<'a>>, TextFault>
    requires { highest ≤ 1000 }
    ensures { Gives (spec.read_boxes highest tokens.old) result tokens.new }
{
    let mut boxes = Items::with_room(alloc, tokens.left() / SYMBOLS_OF_A_BOX)?;
    for _turn in 0..tokens.left() {
        if tokens.is_done() {
            return Ok(boxes);
        }
        let next = one_box(arena, tokens, highest)?;
        boxes.push(next)?;
    }
    Ok(boxes)
}

/// All boxes, and nothing after them.
#[tactic(auto, unfolding(crate::specs::BoxReading::read_all))]
pub fn all<'a>(
    alloc: Global,
    arena: &'a Bump,
    tokens: &mut Cursor<'a, '_>,
    highest: u32,
) -> Result<Items<ZBox<'a>>, TextFault>
    requires { highest ≤ 1000 }
    ensures { Gives (spec.read_all highest tokens.old) result tokens.new }
{
    let boxes = boxes(alloc, arena, tokens, highest)?;
    if !tokens.is_done() {
        return Err(tokens.unexpected());
    }
    Ok(boxes)
}

/// One box, and nothing after it.
#[tactic(auto, unfolding(crate::specs::BoxReading::read_only))]
pub fn only<'a>(
    arena: &'a Bump,
    tokens: &mut Cursor<'a, '_>,
    highest: u32,
) -> Result<ZBox<'a>, TextFault>
    requires { highest ≤ 1000 }
    ensures { Gives (spec.read_only highest tokens.old) result tokens.new }
{
    let only = one_box(arena, tokens, highest)?;
    if !tokens.is_done() {
        return Err(tokens.unexpected());
    }
    Ok(only)
}
