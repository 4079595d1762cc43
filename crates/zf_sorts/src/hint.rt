//! What is reported beside a fault: the term that it is about, or a name that may be meant.
ghost use Rattle.std.specs.Prelude.{◌≡◌, IfOk};
ghost use Rattle.zf_sorts.specs.{IsRefusal, IsStill, offence_of};

use crate::fault::{Hint, Offence, Refusal, TypeFault, fault};
use bumpalo::Bump;
use std::alloc::AllocError;
use zf_data::arena::{Lasting, Lent};
use zf_tree::{Need, Operator, Span, Term};

impl<'a> Refusal<'a> {
    /// The same, which quotes the term where the fault is one of a term and has no hint: of all terms that it passes out of, the
    /// innermost one. Where that is a function that is not a relation, the application is quoted in its place: often none is
    /// meant, and a separator between its operands was forgotten.
    #[inline(never)]
    pub fn quoting(self, arena: &'a Bump, term: &Term<'a>) -> Refusal<'a>
        ensures { IsStill self.entry result }
    {
        let Refusal::Fault(fault) = self else {
            return Refusal::OutOfMemory;
        };
        if !lacks_term(fault.get()) && !is_of_function(fault.get(), term) {
            return Refusal::Fault(fault);
        }
        match quoted(arena, fault.get(), term.span()) {
            Ok(fault) => Refusal::Fault(fault),
            Err(_) => Refusal::OutOfMemory,
        }
    }
}

/// Whether it is a term that is wrong, and no name, and none is quoted.
fn lacks_term(fault: &TypeFault<'_>) -> bool {
    fault.hint.is_none() && is_of_term(fault.offence.get())
}

fn is_of_term(offence: &Offence<'_>) -> bool {
    !matches!(
        offence,
        Offence::NotDeclared(_)
            | Offence::AlreadyDefined(_)
            | Offence::NotASchema(_)
            | Offence::LocalTwice(_)
            | Offence::Clash(_)
    )
}

/// Whether the term is an application of what the fault quotes, where a relation is needed.
fn is_of_function(fault: &TypeFault<'_>, term: &Term<'_>) -> bool {
    let Term::Binary(_, Operator::Application, function, _) = term else {
        return false;
    };
    needs_relation(fault.offence.get()) && quotes(&fault.hint, function.get().span())
}

fn needs_relation(offence: &Offence<'_>) -> bool {
    matches!(offence, Offence::Misplaced(Need::Relation, _))
}

/// Whether the hint quotes the term at this place.
fn quotes(hint: &Option<Lasting<'_, Hint<'_>>>, span: Span) -> bool {
    match hint {
        Some(hint) => matches!(hint.get(), Hint::Term(quoted) if *quoted == span),
        None => false,
    }
}

/// The fault with the term at this place.
fn quoted<'a>(
    arena: &'a Bump,
    fault: &TypeFault<'a>,
    term: Span,
) -> Result<Lasting<'a, TypeFault<'a>>, AllocError>
    ensures offence { IfOk result (λ f. offence_of f.offence ≡ offence_of fault.now.offence) }
    ensures span { IfOk result (λ f. f.span ≡ fault.now.span) }
{
    let hint = Lasting::new(arena, Hint::Term(term))?;
    Lasting::new(
        arena,
        TypeFault {
            offence: fault.offence.share(),
            span: fault.span,
            hint: Some(hint),
        },
    )
}

/// The refusal of a name by what is wrong at this place, with a name that is like it.
#[inline(never)]
pub fn refused_name<'a>(
    arena: &'a Bump,
    offence: Offence<'a>,
    span: Span,
    like: Option<&[u8]>,
) -> Refusal<'a>
    ensures { IsRefusal result (offence_of offence.entry) span }
{
    match with_likeness(arena, offence, span, like) {
        Ok(fault) => Refusal::Fault(fault),
        Err(_) => Refusal::OutOfMemory,
    }
}

fn with_likeness<'a>(
    arena: &'a Bump,
    offence: Offence<'a>,
    span: Span,
    like: Option<&[u8]>,
) -> Result<Lasting<'a, TypeFault<'a>>, AllocError>
    ensures offence { IfOk result (λ f. offence_of f.offence ≡ offence_of offence.entry) }
    ensures span { IfOk result (λ f. f.span ≡ span) }
{
    let hint = likeness(arena, like)?;
    fault(arena, offence, span, hint)
}

fn likeness<'a>(
    arena: &'a Bump,
    like: Option<&[u8]>,
) -> Result<Option<Lasting<'a, Hint<'a>>>, AllocError> {
    let Some(name) = like else {
        return Ok(None);
    };
    let name = Lent::of(arena, name)?;
    Ok(Some(Lasting::new(arena, Hint::Like(name))?))
}
