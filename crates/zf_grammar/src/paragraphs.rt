//! The rules of paragraphs.
ghost use Rattle.std.specs.Prelude.{◌≤◌, IfOk};
ghost use Rattle.zf_grammar.specs.BoxReading as spec;
ghost use Rattle.zf_grammar.specs.{Gives, past};

use crate::cursor::Cursor;
use crate::items::Rule;
use crate::names::{names, parted_names};
use crate::schemas::schema;
use crate::tall::{Read, Tall};
use crate::terms::term;
use bumpalo::Bump;
use zf_levels::EXPRESSION;
use zf_scan::{Mark, Next};
use zf_tree::{Name, Paragraph};

/// Given sets, after the opening bracket.
#[tactic(auto, unfolding(crate::specs::BoxReading::given))]
fn given<'a>(arena: &'a Bump, tokens: &mut Cursor<'a, '_>) -> Read<Paragraph<'a>>
    ensures value { Gives (spec.given tokens.old) result tokens.new }
    ensures low { IfOk result (λ x. x.height ≤ 0) }
{
    let names = names(arena, tokens)?;
    tokens.expect(Mark::CloseSquare)?;
    Ok(Tall {
        part: Paragraph::Given(names),
        height: 0,
    })
}

/// The constructors of a free type.
#[tactic(auto, unfolding(crate::specs::BoxReading::free_type))]
fn free_type<'a>(
    arena: &'a Bump,
    tokens: &mut Cursor<'a, '_>,
    name: Name<'a>,
) -> Read<Paragraph<'a>>
    ensures value { Gives (spec.free_type name.entry tokens.old) result tokens.new }
    ensures low { IfOk result (λ x. x.height ≤ 0) }
{
    let constructors = parted_names(arena, tokens, Mark::Bar)?;
    Ok(Tall {
        part: Paragraph::Free(name, constructors),
        height: 0,
    })
}

/// The term of an abbreviation.
#[tactic(auto, unfolding(crate::specs::BoxReading::abbreviation))]
fn abbreviation<'a>(
    arena: &'a Bump,
    tokens: &mut Cursor<'a, '_>,
    highest: u32,
    name: Name<'a>,
) -> Read<Paragraph<'a>>
    requires { highest ≤ 1000 }
    ensures value { Gives (spec.abbreviation highest name.entry tokens.old) result tokens.new }
    ensures low { IfOk result (λ x. x.height ≤ highest) }
{
    let set = term(arena, tokens, highest, EXPRESSION)?;
    Ok(Tall {
        part: Paragraph::Abbrev(name, set.part),
        height: set.height,
    })
}

/// A definition after its name, which has no strokes.
#[tactic(auto, unfolding(crate::specs::BoxReading::definition))]
fn definition<'a>(
    arena: &'a Bump,
    tokens: &mut Cursor<'a, '_>,
    highest: u32,
    name: Name<'a>,
) -> Read<Paragraph<'a>>
    requires { highest ≤ 1000 }
    ensures value { Gives (past (spec.definition highest name.entry) tokens.old) result tokens.new }
    ensures low { IfOk result (λ x. x.height ≤ highest) }
{
    if !name.is_bare() {
        return Err(tokens.unexpected());
    }
    tokens.skip();
    let schema = schema(arena, tokens, highest)?;
    Ok(Tall {
        part: Paragraph::Defs(name, schema.part),
        height: schema.height,
    })
}

/// A paragraph that begins with the name it defines.
#[tactic(auto, unfolding(crate::specs::BoxReading::named))]
fn named<'a>(arena: &'a Bump, tokens: &mut Cursor<'a, '_>, highest: u32) -> Read<Paragraph<'a>>
    requires { highest ≤ 1000 }
    ensures value { Gives (spec.named highest tokens.old) result tokens.new }
    ensures low { IfOk result (λ x. x.height ≤ highest) }
{
    let name = tokens.name()?;
    match tokens.peek() {
        Next::FreeType => {
            tokens.skip();
            free_type(arena, tokens, name)
        }
        Next::Abbreviates => {
            tokens.skip();
            abbreviation(arena, tokens, highest, name)
        }
        Next::Defines => definition(arena, tokens, highest, name),
        _ => Err(tokens.unexpected()),
    }
}

/// A paragraph.
#[derive(Drop)]
pub struct ParagraphRule<'a> {
    pub arena: &'a Bump,
    pub highest: u32,
}

impl<'a> Rule<'a> for ParagraphRule<'a> {
    type Item = Paragraph<'a>;

    ghost parser = { λ r. spec.read_paragraph r.highest };

    ghost limit = { λ r. r.highest };

    #[tactic(auto, unfolding(crate::specs::BoxReading::read_paragraph))]
    fn read(&self, tokens: &mut Cursor<'a, '_>) -> Read<Paragraph<'a>> {
        if tokens.is_at(Mark::OpenSquare) {
            tokens.skip();
            return given(self.arena, tokens);
        }
        named(self.arena, tokens, self.highest)
    }
}
