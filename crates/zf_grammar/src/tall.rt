//! Parts of a term, each with its height.
ghost use Rattle.std.specs.Prelude.{◌≡◌, List, Ok, IfOk};
ghost use Rattle.zf_grammar.specs.Prelude.{Symbol, TooDeep};
ghost use Rattle.zf_grammar.specs.TermReading as spec;
ghost use Rattle.zf_grammar.specs.{Gives};

use bumpalo::Bump;
use zf_data::arena::Boxed;
use zf_scan::{TextFault, TextFaultKind};
use zf_tree::{Span, Term};

/// What was read, with the height of the highest term in it.
#[derive(Drop)]
pub struct Tall<T> {
    pub part: T,
    pub height: u32,
}

/// A term in its box, with its height.
pub type TallTerm<'a> = Tall<Boxed<'a, Term<'a>>>;

/// What was read, with its height, or why it is not there.
pub type Read<T> = Result<Tall<T>, TextFault>;

/// A term that was read.
pub type TermRead<'a> = Read<Boxed<'a, Term<'a>>>;

/// The term in its box, with its height.
#[inline(always)]
pub fn boxed<'a>(arena: &'a Bump, term: Term<'a>, height: u32) -> TermRead<'a>
    ensures value { (outcome : _) (after : List Symbol) → outcome ≡ Ok (spec.tall term.entry height, after) → Gives outcome result after }
    ensures low { IfOk result (λ x. x.height ≡ height) }
{
    Ok(Tall {
        part: Boxed::new(arena, term)?,
        height,
    })
}

/// Of a term or schema expression that is higher than allowed, with the place where it begins.
pub fn too_deep(span: Span) -> TextFault
    ensures { result.kind ≡ TooDeep }
{
    TextFault {
        kind: TextFaultKind::TooDeep,
        span,
    }
}
