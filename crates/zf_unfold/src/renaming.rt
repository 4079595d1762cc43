//! What names become where the outermost bound variable has the name of a member.
ghost use Rattle.std.specs.Prelude.{◌≡◌};
ghost use Rattle.zf_unfold.specs.Renaming as spec;

use zf_reference::Reference;
use zf_resolved::Naming;

/// What names become: the outermost bound variable that of a member, if there is one, and a global without an outcome the first such one.
#[derive(Clone, Copy)]
pub(crate) struct Renaming {
    pub(crate) count: usize,
    pub(crate) member: Option<usize>,
}

impl Naming for Renaming {
    ghost use Rattle.zf_unfold.specs.RenamingViews.{named_by};

    ghost becomes = { named_by };

    #[tactic(auto, unfolding(crate::specs::Renaming::named))]
    fn named(&self, reference: Reference) -> Reference {
        match reference {
            Reference::Component(_) => reference,
            Reference::Local(place) => match self.member {
                None => reference,
                Some(member) => inside(place, member),
            },
            Reference::Global(place) => Reference::Global(place.min(self.count)),
        }
    }
}

/// A bound variable where the outermost has the name of a member.
fn inside(place: usize, member: usize) -> Reference
    ensures { result ≡ spec.inside member place }
{
    match place.checked_sub(1) {
        None => Reference::Global(member),
        Some(inside) => Reference::Local(inside),
    }
}
