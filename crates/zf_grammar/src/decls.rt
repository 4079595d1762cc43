//! The rules of schema references, declarations and predicates.
ghost use Rattle.std.specs.Prelude.{◌≤◌, IfOk};
ghost use Rattle.zf_grammar.specs.BoxReading as spec;
ghost use Rattle.zf_grammar.specs.{Gives};

use crate::cursor::Cursor;
use crate::items::{Rule, items};
use crate::names::names;
use crate::tall::{Read, Tall, TermRead, too_deep};
use crate::terms::term;
use bumpalo::Bump;
use zf_data::arena::{Boxed, Items};
use zf_levels::{EXPRESSION, QUANTIFIER};
use zf_scan::{Mark, Next, TextFault};
use zf_tree::{Decl, RefMark, SchemaRef, Term};

#[tactic(auto, unfolding(crate::specs::BoxReading::marked))]
fn marked<'a>(tokens: &mut Cursor<'a, '_>, mark: RefMark) -> Result<SchemaRef<'a>, TextFault>
    ensures { Gives (spec.marked mark tokens.old) result tokens.new }
{
    let name = tokens.name()?;
    Ok(SchemaRef { mark, name })
}

/// A schema reference.
#[tactic(auto, unfolding(crate::specs::BoxReading::read_ref))]
pub fn reference<'a>(tokens: &mut Cursor<'a, '_>) -> Result<SchemaRef<'a>, TextFault>
    ensures { Gives (spec.read_ref tokens.old) result tokens.new }
{
    match tokens.peek() {
        Next::Delta => {
            tokens.skip();
            marked(tokens, RefMark::Delta)
        }
        Next::Xi => {
            tokens.skip();
            marked(tokens, RefMark::Xi)
        }
        _ => marked(tokens, RefMark::Plain),
    }
}

/// Components and their declared set.
#[tactic(auto, unfolding(crate::specs::BoxReading::variables))]
fn variables<'a>(arena: &'a Bump, tokens: &mut Cursor<'a, '_>, highest: u32) -> Read<Decl<'a>>
    requires { highest ≤ 1000 }
    ensures value { Gives (spec.variables highest tokens.old) result tokens.new }
    ensures low { IfOk result (λ x. x.height ≤ highest) }
{
    let names = names(arena, tokens)?;
    tokens.expect(Mark::Colon)?;
    let set = term(arena, tokens, highest, EXPRESSION)?;
    Ok(Tall {
        part: Decl::Vars(names, set.part),
        height: set.height,
    })
}

/// A schema that is included, which has height 1.
#[tactic(auto, unfolding(crate::specs::BoxReading::inclusion))]
fn inclusion<'a>(tokens: &mut Cursor<'a, '_>, highest: u32) -> Read<Decl<'a>>
    ensures value { Gives (spec.inclusion highest tokens.old) result tokens.new }
    ensures low { IfOk result (λ x. x.height ≤ highest) }
{
    let schema = reference(tokens)?;
    if highest < 1 {
        return Err(too_deep(schema.name.span));
    }
    Ok(Tall {
        part: Decl::Include(schema),
        height: 1,
    })
}

/// A declaration.
#[derive(Drop)]
struct DeclRule<'a> {
    arena: &'a Bump,
    highest: u32,
}

impl<'a> Rule<'a> for DeclRule<'a> {
    type Item = Decl<'a>;

    ghost parser = { λ r. spec.read_decl r.highest };

    ghost limit = { λ r. r.highest };

    #[tactic(auto, unfolding(crate::specs::BoxReading::read_decl))]
    fn read(&self, tokens: &mut Cursor<'a, '_>) -> Read<Decl<'a>> {
        if tokens.declares() {
            return variables(self.arena, tokens, self.highest);
        }
        inclusion(tokens, self.highest)
    }
}

/// One or more declarations, parted by separators.
pub fn decls<'a>(
    arena: &'a Bump,
    tokens: &mut Cursor<'a, '_>,
    highest: u32,
) -> Read<Items<'a, Decl<'a>>>
    requires { highest ≤ 1000 }
    ensures value { Gives (spec.read_decls highest tokens.old) result tokens.new }
    ensures low { IfOk result (λ x. x.height ≤ highest) }
{
    items(arena, tokens, Mark::Separator, &DeclRule { arena, highest })
}

/// A predicate.
#[derive(Drop)]
struct PredicateRule<'a> {
    arena: &'a Bump,
    highest: u32,
}

impl<'a> Rule<'a> for PredicateRule<'a> {
    type Item = Boxed<'a, Term<'a>>;

    ghost use Rattle.zf_levels.specs.{quantifier_level};
    ghost use Rattle.zf_grammar.specs.TermReading.{read_term};

    ghost parser = { λ r. read_term r.highest quantifier_level };

    ghost limit = { λ r. r.highest };

    fn read(&self, tokens: &mut Cursor<'a, '_>) -> TermRead<'a> {
        term(self.arena, tokens, self.highest, QUANTIFIER)
    }
}

/// Predicates after a symbol, parted by separators, if that symbol is there.
#[tactic(auto, unfolding(crate::specs::BoxReading::predicates))]
pub fn predicates<'a>(
    arena: &'a Bump,
    tokens: &mut Cursor<'a, '_>,
    highest: u32,
    mark: Mark,
) -> Read<Items<'a, Boxed<'a, Term<'a>>>>
    requires { highest ≤ 1000 }
    ensures value { Gives (spec.predicates highest mark tokens.old) result tokens.new }
    ensures low { IfOk result (λ x. x.height ≤ highest) }
{
    if !tokens.is_at(mark) {
        return Ok(Tall {
            part: Items::new(arena),
            height: 0,
        });
    }
    tokens.skip();
    items(
        arena,
        tokens,
        Mark::Separator,
        &PredicateRule { arena, highest },
    )
}
