//! What symbols are after a term.
ghost use Rattle.std.specs.Prelude.{◌≡◌};
ghost use Rattle.zf_grammar.specs.TermReading as spec;

use zf_levels::{CHAIN, EXPRESSION, POSTFIX, PRODUCT, QUANTIFIER, left_place, operator_level};
use zf_scan::Next;
use zf_tree::Operator;

/// What a symbol is after a term.
#[derive(Clone, Copy)]
pub enum Role {
    /// It does not go on with the term.
    Ends,
    /// What stands between the term and its right operand, which is a term itself where the operator is application.
    Operator(Operator),
    /// The first link of a chain.
    Relation,
    Cross,
    Inverse,
}

/// What the symbol is after a term.
#[inline(always)]
pub fn role_of(next: Next) -> Role
    ensures { result ≡ spec.role_of next }
{
    match next {
        Next::Infix(op) => Role::Operator(Operator::Function(op)),
        Next::Arrow(arrow) => Role::Operator(Operator::Generic(arrow)),
        Next::Connective(connective) => Role::Operator(Operator::Connective(connective)),
        Next::OpenImage => Role::Operator(Operator::Image),
        Next::Name | Next::Number | Next::Constant(_) => Role::Operator(Operator::Application),
        Next::EmptySet | Next::OpenRound | Next::OpenBrace => {
            Role::Operator(Operator::Application)
        }
        Next::Relation(_) => Role::Relation,
        Next::Cross => Role::Cross,
        Next::Inverse => Role::Inverse,
        _ => Role::Ends,
    }
}

impl Role {
    /// One more than the level at which such a symbol goes on with the term before it; 0 where it does not.
    #[inline(always)]
    pub fn binds(self) -> u8
        ensures { result ≡ spec.bound_by self }
    {
        match self {
            Role::Ends => 0,
            Role::Operator(op) => operator_level(op) + 1,
            Role::Relation => CHAIN + 1,
            Role::Cross => PRODUCT + 1,
            Role::Inverse => POSTFIX + 1,
        }
    }

    /// The level that the term before such a symbol has at least.
    pub fn place_before(self) -> u8
        ensures { result ≡ spec.place_before self }
    {
        match self {
            Role::Ends => QUANTIFIER,
            Role::Operator(op) => left_place(op),
            Role::Relation => EXPRESSION,
            Role::Cross => PRODUCT + 1,
            Role::Inverse => POSTFIX,
        }
    }
}
