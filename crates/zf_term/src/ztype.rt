//! Types.
ghost use Rattle.std.specs.Prelude.{◌≡◌, ◌+◌, ◌<◌, ◌↔◌, IsTrue, IfOk, MatchOption, map};
ghost use Rattle.zf_term.specs.{int, IsSmall, nodes_of_all, pair_type, power, product, Ty, type_nodes, type_of, types};
ghost use Rattle.zf_term.specs.Types as spec;

use bumpalo::Bump;
use std::alloc::AllocError;
use zf_data::arena::{Items, Lent, Shared};

/// A type. Two are the same type where they are equal.
#[derive(Drop)]
pub enum ZType<'a> {
    /// `\num`
    Int,
    /// A given set or free type, by its name.
    Basic(Lent<'a>),
    /// Sets of members of a type.
    Power(Shared<'a, ZType<'a>>),
    /// Tuples.
    Product(Shared<'a, Items<'a, ZType<'a>>>),
}

/// The limit on the nodes of a type.
const MOST_NODES: u32 = 256;

impl<'a> ZType<'a> {
    /// The same type, of which nothing is copied.
    pub fn share(&self) -> Result<ZType<'a>, AllocError>
        ensures { IfOk result (λ t. t ≡ self.now) }
    {
        match self {
            ZType::Int => Ok(ZType::Int),
            ZType::Basic(name) => Ok(ZType::Basic(name.share())),
            ZType::Power(member) => Ok(ZType::Power(member.share()?)),
            ZType::Product(parts) => Ok(ZType::Product(parts.share()?)),
        }
    }

    /// Whether the types are the same.
    #[cycle(same)]
    #[tactic(auto, unfolding(crate::specs::TypeViews::type_of))]
    pub fn same(&self, other: &ZType<'a>) -> bool
        ensures { IsTrue result ↔ (type_of self.now ≡ type_of other.now) }
    {
        match (self, other) {
            (ZType::Int, ZType::Int) => true,
            (ZType::Basic(name), ZType::Basic(other)) => name.same(other),
            (ZType::Power(member), ZType::Power(other)) => member.get().same(other.get()),
            (ZType::Product(parts), ZType::Product(others)) => {
                same_all(parts.get().as_slice(), others.get().as_slice())
            }
            _ => false,
        }
    }

    /// Whether the type is within the limit.
    pub fn is_small(&self) -> bool
        ensures { IsTrue result ↔ IsSmall (type_of self.now) }
    {
        self.room_after(MOST_NODES).is_some()
    }

    /// How much of the room for nodes is left after the type, where there is enough. Ends as soon as there isn't.
    #[cycle(room)]
    fn room_after(&self, room: u32) -> Option<u32>
        ensures { MatchOption result (room < type_nodes (type_of self.now)) (λ left. left + type_nodes (type_of self.now) ≡ room) }
    {
        let mut ztype = self;
        let mut left = room;
        while left > 0 {
            left -= 1;
            match ztype {
                ZType::Int | ZType::Basic(_) => return Some(left),
                ZType::Power(member) => ztype = member.get(),
                ZType::Product(parts) => return room_after_all(parts.get().as_slice(), left),
            }
        }
        None
    }

    /// Whether numbers are parts of its values.
    #[cycle(numbers)]
    #[tactic(auto, using(crate::proofs::TypesSeen::seen))]
    pub fn has_numbers(&self) -> bool
        ensures { result ≡ spec.has_numbers (type_of self.now) }
    {
        match self {
            ZType::Int => true,
            ZType::Basic(_) => false,
            ZType::Power(member) => member.get().has_numbers(),
            ZType::Product(parts) => have_numbers(parts.get().as_slice()),
        }
    }

    /// Whether it is that of numbers.
    #[tactic(auto, using(crate::proofs::TypeForms::int_form))]
    pub fn is_int(&self) -> bool
        ensures { IsTrue result ↔ (type_of self.now ≡ int) }
    {
        matches!(self, ZType::Int)
    }

    /// Whether it is one of sets.
    #[tactic(auto, using(crate::proofs::TypeForms::set_form))]
    pub fn is_set(&self) -> bool
        ensures { IsTrue result ↔ ((t : Ty) × (type_of self.now ≡ power t)) }
    {
        matches!(self, ZType::Power(_))
    }

    /// Whether it is one of sets of pairs.
    pub fn is_relation(&self) -> bool
        ensures { IsTrue result ↔ ((t u : Ty) × (type_of self.now ≡ power (pair_type t u))) }
    {
        match self {
            ZType::Power(member) => member.get().is_pair(),
            _ => false,
        }
    }

    /// Whether it is one of pairs.
    pub fn is_pair(&self) -> bool
        ensures { IsTrue result ↔ ((t u : Ty) × (type_of self.now ≡ pair_type t u)) }
    {
        match self {
            ZType::Product(parts) => parts.get().len() == 2,
            _ => false,
        }
    }

    /// The type of a set's members.
    pub fn member(&self) -> Option<&ZType<'a>>
        ensures { MatchOption result ((t : Ty) → type_of self.now ≡ power t → ⊥) (λ t. type_of self.now ≡ power (type_of t.now)) }
    {
        match self {
            ZType::Power(member) => Some(member.get()),
            _ => None,
        }
    }

    /// The types of both parts of a pair.
    pub fn pair(&self) -> Option<(&ZType<'a>, &ZType<'a>)>
        ensures { MatchOption result ((t u : Ty) → type_of self.now ≡ pair_type t u → ⊥) (λ p. type_of self.now ≡ pair_type (type_of p.0.now) (type_of p.1.now)) }
    {
        let ZType::Product(parts) = self else {
            return None;
        };
        let parts = parts.get().as_slice();
        if parts.len() != 2 {
            return None;
        }
        Some((&parts[0], &parts[1]))
    }
}

#[cycle(same)]
fn same_all<'a>(parts: &[ZType<'a>], others: &[ZType<'a>]) -> bool
    ensures { IsTrue result ↔ (map type_of parts.now ≡ map type_of others.now) }
{
    if parts.len() != others.len() {
        return false;
    }
    for i in 0..parts.len() {
        if !parts[i].same(&others[i]) {
            return false;
        }
    }
    true
}

#[cycle(room)]
fn room_after_all(parts: &[ZType<'_>], room: u32) -> Option<u32>
    ensures { MatchOption result (room < nodes_of_all (types (map type_of parts.now))) (λ left. left + nodes_of_all (types (map type_of parts.now)) ≡ room) }
{
    let mut left = room;
    for part in parts {
        let Some(rest) = part.room_after(left) else {
            return None;
        };
        left = rest;
    }
    Some(left)
}

#[cycle(numbers)]
fn have_numbers(parts: &[ZType<'_>]) -> bool
    ensures { result ≡ spec.have_numbers (types (map type_of parts.now)) }
{
    for part in parts {
        if part.has_numbers() {
            return true;
        }
    }
    false
}

/// The type of sets of members of a type.
#[tactic(auto, using(crate::proofs::TypesSeen::seen))]
pub fn set_type<'a>(arena: &'a Bump, member: ZType<'a>) -> Result<ZType<'a>, AllocError>
    ensures { IfOk result (λ t. type_of t ≡ power (type_of member.entry)) }
{
    Ok(ZType::Power(Shared::new(arena, member)?))
}

/// The type of pairs.
#[tactic(auto, using(crate::proofs::TypesSeen::seen))]
pub fn pair_type<'a>(
    arena: &'a Bump,
    first: ZType<'a>,
    second: ZType<'a>,
) -> Result<ZType<'a>, AllocError>
    ensures { IfOk result (λ t. type_of t ≡ pair_type (type_of first.entry) (type_of second.entry)) }
{
    let mut parts = Items::with_room(arena, 2)?;
    parts.push(first)?;
    parts.push(second)?;
    product_type(arena, parts)
}

/// The type of tuples of parts of these types.
#[tactic(auto, using(crate::proofs::TypesSeen::seen))]
pub fn product_type<'a>(
    arena: &'a Bump,
    parts: Items<'a, ZType<'a>>,
) -> Result<ZType<'a>, AllocError>
    ensures { IfOk result (λ t. type_of t ≡ product (types (map type_of parts.entry))) }
{
    Ok(ZType::Product(Shared::new(arena, parts)?))
}

/// Types that are the same are equal, so that `same` is equality.
pub fn one_type()
    ensures { (a b : ZType) → type_of a ≡ type_of b → a ≡ b }
{}
