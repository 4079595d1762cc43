//! What a term can be.
ghost use Rattle.std.specs.Prelude.{◌≡◌, ◌↔◌, IsTrue, IfOk, MatchOption};
ghost use Rattle.zf_term.specs.{lack, lack_of, Ty, type_of, typed, untyped_lack};
ghost use Rattle.zf_sorts.specs.{IsSmallSort, Meets, relation_sort, set_sort, sort_of};

use std::alloc::AllocError;
use zf_term::{TypeFaultKind, ZType};
use zf_tree::Need;

/// What a term is.
#[derive(Drop)]
pub enum Sort<'a> {
    /// An expression of this type.
    Typed(ZType<'a>),
    Predicate,
    /// The name of a schema.
    Schema,
}

impl<'a> Sort<'a> {
    /// The same sort, of which nothing is copied.
    pub fn share(&self) -> Result<Sort<'a>, AllocError>
        ensures { IfOk result (λ z. sort_of z ≡ sort_of self.now) }
    {
        match self {
            Sort::Typed(ztype) => Ok(Sort::Typed(ztype.share()?)),
            Sort::Predicate => Ok(Sort::Predicate),
            Sort::Schema => Ok(Sort::Schema),
        }
    }

    /// Whether a term of this sort can stand where this is needed.
    pub fn meets(&self, need: Need) -> bool
        ensures { IsTrue result ↔ Meets need (sort_of self.now) }
    {
        match self {
            Sort::Typed(ztype) => type_meets(ztype, need),
            Sort::Predicate => need == Need::Predicate,
            Sort::Schema => false,
        }
    }

    /// What is wrong with a term of this sort where this is needed.
    pub fn lack(&self, need: Need) -> TypeFaultKind
        ensures { result ≡ lack_of need (sort_of self.now) }
    {
        match self {
            Sort::Typed(_) => typed_lack(need),
            Sort::Predicate | Sort::Schema => untyped_lack(need),
        }
    }

    /// Whether its type is within the limit.
    pub fn is_small(&self) -> bool
        ensures { IsTrue result ↔ IsSmallSort (sort_of self.now) }
    {
        match self {
            Sort::Typed(ztype) => ztype.is_small(),
            Sort::Predicate | Sort::Schema => true,
        }
    }

    /// Whether the sorts are the same.
    pub fn same(&self, other: &Sort<'a>) -> bool
        ensures { IsTrue result ↔ (sort_of self.now ≡ sort_of other.now) }
    {
        match (self, other) {
            (Sort::Typed(ztype), Sort::Typed(other)) => ztype.same(other),
            (Sort::Predicate, Sort::Predicate) | (Sort::Schema, Sort::Schema) => true,
            _ => false,
        }
    }

    /// The type of an expression.
    pub fn into_type(self) -> Option<ZType<'a>>
        ensures { MatchOption result ((t : Ty) → sort_of self.entry ≡ typed t → ⊥) (λ t. sort_of self.entry ≡ typed (type_of t)) }
    {
        let Sort::Typed(ztype) = self else {
            return None;
        };
        Some(ztype)
    }

    /// The type of an expression, lent.
    pub fn ztype(&self) -> Option<&ZType<'a>>
        ensures { MatchOption result ((t : Ty) → sort_of self.now ≡ typed t → ⊥) (λ t. sort_of self.now ≡ typed (type_of t.now)) }
    {
        match self {
            Sort::Typed(ztype) => Some(ztype),
            Sort::Predicate | Sort::Schema => None,
        }
    }

    /// The type of the members of a set.
    pub fn member(&self) -> Option<&ZType<'a>>
        ensures { MatchOption result ((t : Ty) → sort_of self.now ≡ set_sort t → ⊥) (λ t. sort_of self.now ≡ set_sort (type_of t.now)) }
    {
        self.ztype()?.member()
    }

    /// The types that a relation is from and into.
    pub fn sides(&self) -> Option<(&ZType<'a>, &ZType<'a>)>
        ensures { MatchOption result ((t u : Ty) → sort_of self.now ≡ relation_sort t u → ⊥) (λ p. sort_of self.now ≡ relation_sort (type_of p.0.now) (type_of p.1.now)) }
    {
        self.member()?.pair()
    }
}

fn type_meets(ztype: &ZType<'_>, need: Need) -> bool
    ensures { IsTrue result ↔ Meets need (typed (type_of ztype.now)) }
{
    match need {
        Need::Expression => true,
        Need::Number => ztype.is_int(),
        Need::Set => ztype.is_set(),
        Need::Relation => ztype.is_relation(),
        Need::Predicate => false,
    }
}

fn typed_lack(need: Need) -> TypeFaultKind
    ensures { result ≡ lack need }
{
    match need {
        Need::Expression => TypeFaultKind::NotAnExpression,
        Need::Number => TypeFaultKind::NotANumber,
        Need::Set => TypeFaultKind::NotASet,
        Need::Relation => TypeFaultKind::NotARelation,
        Need::Predicate => TypeFaultKind::NotAPredicate,
    }
}

fn untyped_lack(need: Need) -> TypeFaultKind
    ensures { result ≡ untyped_lack need }
{
    match need {
        Need::Predicate => TypeFaultKind::NotAPredicate,
        Need::Expression | Need::Number | Need::Set | Need::Relation => {
            TypeFaultKind::NotAnExpression
        }
    }
}
