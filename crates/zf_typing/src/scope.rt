//! What names stand for.
ghost use Rattle.std.specs.Prelude.{◌≡◌, ◌↔◌, IsTrue, IfOk, map};
ghost use Rattle.zf_typing.specs.Prelude.{definition_of, sort_of, spelling};
ghost use Rattle.zf_typing.specs.{IsBound, meant, scope_of, variable_of};
ghost use Rattle.zf_typing.specs.Scopes as spec;

use crate::locals::Locals;
use bumpalo::Bump;
use std::alloc::AllocError;
use zf_data::arena::{Lent, Shared};
use zf_reference::Reference;
use zf_sorts::Sort;
use zf_term::{Component, Entry, Globals, ZType, component_of, global_of};
use zf_tree::Name;

/// What is in scope; the variables that are bound last stand last.
#[derive(Drop)]
pub struct Scope<'a, 'b> {
    pub globals: &'b Globals<'a>,
    pub components: &'b [Component<'a>],
    pub locals: Locals<'a>,
}

impl<'a> Scope<'a, '_> {
    /// What a name refers to, and what it is.
    pub fn meaning(
        &self,
        arena: &'a Bump,
        name: &Name<'a>,
    ) -> Result<Option<(Reference, Sort<'a>)>, AllocError>
        ensures { IfOk result (λ found. meant found ≡ spec.meaning (scope_of self.now) (spelling name.now)) }
    {
        self.meaning_of(arena, name.spelled().as_slice())
    }

    fn meaning_of(
        &self,
        arena: &'a Bump,
        name: &'a [u8],
    ) -> Result<Option<(Reference, Sort<'a>)>, AllocError>
        ensures { IfOk result (λ found. meant found ≡ spec.meaning (scope_of self.now) name.now) }
    {
        if let Some((place, variable)) = self.locals.find(name) {
            let sort = Sort::Typed(variable.ztype.share()?);
            return Ok(Some((Reference::Local(place), sort)));
        }
        if let Some((place, component)) = component_of(self.components, name) {
            let sort = Sort::Typed(component.ztype.share()?);
            return Ok(Some((Reference::Component(place), sort)));
        }
        match global_of(self.globals, name) {
            Some((place, entry)) => {
                let sort = entry_sort(arena, name, entry)?;
                Ok(Some((Reference::Global(place), sort)))
            }
            None => Ok(None),
        }
    }
}

/// Whether one of the variables has the name.
pub(crate) fn is_bound(locals: &Locals<'_>, name: &[u8]) -> bool
    ensures { IsTrue result ↔ IsBound name.now (map variable_of locals.now) }
{
    match locals.find(name) {
        Some(_) => true,
        None => false,
    }
}

/// What a global is.
#[tactic(auto, using(zf_term::proofs::TypesSeen::seen))]
fn entry_sort<'a>(
    arena: &'a Bump,
    name: &'a [u8],
    entry: &Entry<'a>,
) -> Result<Sort<'a>, AllocError>
    ensures { IfOk result (λ sort. sort_of sort ≡ spec.definition_sort name.now (definition_of entry.now)) }
{
    match entry {
        Entry::Given(_) | Entry::Free(_, _) => {
            let members = ZType::Basic(Lent::new(name));
            Ok(Sort::Typed(ZType::Power(Shared::new(arena, members)?)))
        }
        Entry::Constructor(_, of_type, _) => Ok(Sort::Typed(ZType::Basic(of_type.share()))),
        Entry::Abbrev(ztype, _, _) => Ok(Sort::Typed(ztype.share()?)),
        Entry::Schema(_) => Ok(Sort::Schema),
    }
}
