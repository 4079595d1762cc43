//! Faults of types.
ghost use Rattle.std.specs.Prelude.{◌≡◌, IfOk};
ghost use Rattle.zf_term.specs.{kind_of, misplaced};
ghost use Rattle.zf_sorts.specs.declared.fault.Refusal.TheVariants.{OutOfMemory};
ghost use Rattle.zf_sorts.specs.{fault_of, IsRefusal, offence_of, sort_of};

use crate::sort::Sort;
use bumpalo::Bump;
use std::alloc::{AllocError, AllocFailed};
use zf_data::arena::{Lasting, Lent};
use zf_term::{Clash, Limit, TypeFaultKind, ZType};
use zf_tree::{Need, Span};

/// What is wrong. Names are as spelled, with their strokes.
#[derive(Drop)]
pub enum Offence<'a> {
    NotDeclared(Lent<'a>),
    AlreadyDefined(Lent<'a>),
    NotASchema(Lent<'a>),
    LocalTwice(Lent<'a>),
    /// What stands to the left and to the right is of these sorts, which no rule takes together.
    Mismatch(Sort<'a>, Sort<'a>),
    /// The one type is needed, and the other one found.
    Unfit(ZType<'a>, ZType<'a>),
    /// A display without members, which has no type.
    NoMembers,
    /// A place needs another sort than what was found there.
    Misplaced(Need, Sort<'a>),
    Clash(Clash<'a>),
    /// A limit that is passed.
    TooLarge(Limit),
}

/// A fault, with the place of the offending term or name.
#[derive(Drop)]
pub struct TypeFault<'a> {
    pub offence: Lasting<'a, Offence<'a>>,
    pub span: Span,
    /// What may help to find it.
    pub hint: Option<Lasting<'a, Hint<'a>>>,
}

/// What is reported beside what is wrong. Nothing is promised of it.
#[derive(Drop)]
pub enum Hint<'a> {
    /// The term that the fault is about.
    Term(Span),
    /// A name in scope that may be meant.
    Like(Lent<'a>),
}

/// Why there is no answer: a fault, or memory ran out.
#[derive(Drop)]
pub enum Refusal<'a> {
    Fault(Lasting<'a, TypeFault<'a>>),
    OutOfMemory,
}

impl<'a> Offence<'a> {
    /// What kind of fault it is.
    pub fn kind(&self) -> TypeFaultKind
        ensures { result ≡ kind_of (offence_of self.now) }
    {
        match self {
            Offence::NotDeclared(_) => TypeFaultKind::NotDeclared,
            Offence::AlreadyDefined(_) => TypeFaultKind::AlreadyDefined,
            Offence::NotASchema(_) => TypeFaultKind::NotASchema,
            Offence::LocalTwice(_) => TypeFaultKind::LocalTwice,
            Offence::Mismatch(_, _) | Offence::Unfit(_, _) | Offence::NoMembers => {
                TypeFaultKind::Mismatch
            }
            Offence::Misplaced(need, found) => found.lack(*need),
            Offence::Clash(_) => TypeFaultKind::ComponentClash,
            Offence::TooLarge(_) => TypeFaultKind::TooLarge,
        }
    }
}

impl<'a> TypeFault<'a> {
    /// What kind of fault it is.
    pub fn kind(&self) -> TypeFaultKind
        ensures { result ≡ kind_of (fault_of self.now).offence }
    {
        self.offence.get().kind()
    }

    /// The same fault, of which nothing is copied.
    pub fn share(&self) -> TypeFault<'a>
        ensures { result ≡ self.now }
    {
        TypeFault {
            offence: self.offence.share(),
            span: self.span,
            hint: self.shared_hint(),
        }
    }

    fn shared_hint(&self) -> Option<Lasting<'a, Hint<'a>>>
        ensures { result ≡ self.now.hint }
    {
        match &self.hint {
            Some(hint) => Some(hint.share()),
            None => None,
        }
    }
}

/// The refusal by what is wrong at this place.
#[inline(never)]
pub fn refused<'a>(arena: &'a Bump, offence: Offence<'a>, span: Span) -> Refusal<'a>
    ensures { IsRefusal result (offence_of offence.entry) span }
{
    match fault(arena, offence, span, None) {
        Ok(fault) => Refusal::Fault(fault),
        Err(_) => Refusal::OutOfMemory,
    }
}

/// The fault by what is wrong at this place.
pub fn fault<'a>(
    arena: &'a Bump,
    offence: Offence<'a>,
    span: Span,
    hint: Option<Lasting<'a, Hint<'a>>>,
) -> Result<Lasting<'a, TypeFault<'a>>, AllocError>
    ensures offence { IfOk result (λ f. offence_of f.offence ≡ offence_of offence.entry) }
    ensures span { IfOk result (λ f. f.span ≡ span) }
{
    let offence = Lasting::new(arena, offence)?;
    Lasting::new(
        arena,
        TypeFault {
            offence,
            span,
            hint,
        },
    )
}

/// The refusal of a term of this sort at this place, where something else is needed.
#[inline(never)]
pub fn misplaced<'a>(arena: &'a Bump, need: Need, found: &Sort<'a>, span: Span) -> Refusal<'a>
    ensures { IsRefusal result (misplaced need (sort_of found.now)) span }
{
    match found.share() {
        Ok(found) => refused(arena, Offence::Misplaced(need, found), span),
        Err(_) => Refusal::OutOfMemory,
    }
}

impl<'a> From<AllocError> for Refusal<'a> {
    ghost from_gives = { λ _ refusal. refusal ≡ OutOfMemory };

    fn from(_error: AllocError) -> Refusal<'a> {
        Refusal::OutOfMemory
    }
}

impl<'a, T: Drop> From<AllocFailed<T>> for Refusal<'a> {
    ghost from_gives = { λ _ refusal. refusal ≡ OutOfMemory };

    fn from(_error: AllocFailed<T>) -> Refusal<'a> {
        Refusal::OutOfMemory
    }
}
