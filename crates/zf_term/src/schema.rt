//! Schemas: components, their declared sets, and conjuncts.
ghost use Rattle.std.specs.Prelude.{◌≡◌, IfOk};

use crate::conjunct::Conjunct;
use crate::resolved::Resolved;
use crate::ztype::ZType;
use bumpalo::Bump;
use std::alloc::AllocError;
use zf_data::arena::{Chunked, Items, Lasting, Lent, Share, Shared};

/// A declared set of a component.
#[derive(Drop)]
pub enum Domain<'a> {
    /// The set that a declaration names.
    Plain(Lasting<'a, Resolved<'a>>),
    /// All values of the type: of a component that one side of a disjunction lacks.
    Carrier(ZType<'a>),
    /// Both sides of a disjunction: what is a member of all of the left or in all of the right.
    Either(Side<'a>, Side<'a>),
}

/// The declared sets of a component on one side of a disjunction.
pub type Side<'a> = Shared<'a, Items<'a, Domain<'a>>>;

/// Declared sets, which several components may share.
pub type Domains<'a> = Shared<'a, Chunked<'a, Domain<'a>>>;

/// A component of a schema, with its declared sets.
#[derive(Drop)]
pub struct Component<'a> {
    /// The name as spelled, with its strokes.
    pub name: Lent<'a>,
    pub ztype: ZType<'a>,
    pub domains: Domains<'a>,
}

/// A schema: its components in order, and the conjuncts of its property.
#[derive(Drop)]
pub struct Flat<'a> {
    pub components: Items<'a, Component<'a>>,
    pub conjuncts: Chunked<'a, Conjunct<'a>>,
}

impl<'a> Share for Domain<'a> {
    fn shared(&self) -> Result<Domain<'a>, AllocError> {
        match self {
            Domain::Plain(set) => Ok(Domain::Plain(set.share())),
            Domain::Carrier(ztype) => Ok(Domain::Carrier(ztype.share()?)),
            Domain::Either(left, right) => Ok(Domain::Either(left.share()?, right.share()?)),
        }
    }
}

impl<'a> Component<'a> {
    /// The same component, of which nothing is copied.
    pub fn share(&self) -> Result<Component<'a>, AllocError>
        ensures { IfOk result (λ c. c ≡ self.now) }
    {
        let name = self.name.share();
        let ztype = self.ztype.share()?;
        let domains = self.domains.share()?;
        Ok(Component {
            name,
            ztype,
            domains,
        })
    }
}
