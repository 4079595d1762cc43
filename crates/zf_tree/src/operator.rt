//! The symbols of terms by what they make one term of, and the rule of types that each has.
ghost use Rattle.std.specs.Prelude.{◌≡◌};
ghost use Rattle.zf_tree.specs.Operators as spec;

use crate::symbol::{Arrow, Connective, Infix, Prefix, Relation};

/// What stands between two terms.
#[derive(Clone, Copy)]
pub enum Operator {
    Function(Infix),
    Generic(Arrow),
    Connective(Connective),
    /// `f x`
    Application,
    /// `R \limg A \rimg`
    Image,
}

/// What stands before one term.
#[derive(Clone, Copy)]
pub enum Sign {
    Symbol(Prefix),
    Minus,
}

/// What is applied to one term.
#[derive(Clone, Copy)]
pub enum Unary {
    Sign(Sign),
    /// `\inv`
    Inverse,
    /// `\lnot`
    Not,
}

/// What makes one term out of several.
#[derive(Clone, Copy)]
pub enum Listed {
    Tuple,
    /// `\{ .. \}`
    Display,
    /// `\cross`
    Product,
}

/// What a place of a term needs.
#[derive(Clone, Copy)]
pub enum Need {
    Expression,
    Number,
    Set,
    Relation,
    Predicate,
}

/// How the types of two operands and of what is made of them belong together.
#[derive(Clone, Copy)]
pub enum Rule {
    /// Of two numbers a number.
    Arithmetic,
    /// Of two numbers a set of numbers.
    Interval,
    /// Of two expressions a pair.
    Pairing,
    /// Of two sets of one type a set of that type.
    SetFunction,
    /// Of two relations of one type a relation of that type.
    Overriding,
    /// Of two relations, the first into what the second is from, a relation.
    Composing,
    /// Of a set and a relation from its type that relation's type.
    DomainRestricting,
    /// Of a relation and a set of the type that it is into the relation's type.
    RangeRestricting,
    /// Of two sets a set of relations.
    Relating,
    /// Of a relation and a member of what it is from a member of what it is into.
    Applying,
    /// Of a relation and a set of what it is from a set of what it is into.
    Imaging,
    /// Between two expressions of one type.
    Equating,
    /// Between a member and a set of its type.
    Belonging,
    /// Between two sets of one type.
    Including,
    /// Between two numbers.
    Comparing,
    /// Between two predicates.
    Connecting,
}

impl Operator {
    /// The rule of types that the symbol has.
    pub fn rule(self) -> Rule
        ensures { result ≡ spec.rule_of self }
    {
        match self {
            Operator::Function(op) => function_rule(op),
            Operator::Generic(_) => Rule::Relating,
            Operator::Connective(_) => Rule::Connecting,
            Operator::Application => Rule::Applying,
            Operator::Image => Rule::Imaging,
        }
    }
}

fn function_rule(op: Infix) -> Rule
    ensures { result ≡ spec.function_rule op }
{
    match op {
        Infix::Maplet => Rule::Pairing,
        Infix::UpTo => Rule::Interval,
        Infix::Plus | Infix::Minus | Infix::Times | Infix::Div | Infix::Mod => Rule::Arithmetic,
        Infix::Union | Infix::Intersection | Infix::Difference => Rule::SetFunction,
        Infix::Composition => Rule::Composing,
        Infix::Overriding => Rule::Overriding,
        Infix::DomainRestriction | Infix::DomainSubtraction => Rule::DomainRestricting,
        Infix::RangeRestriction | Infix::RangeSubtraction => Rule::RangeRestricting,
    }
}

/// The rule of types of a link of a chain.
pub fn relation_rule(relation: Relation) -> Rule
    ensures { result ≡ spec.relation_rule relation }
{
    match relation {
        Relation::Equal | Relation::NotEqual => Rule::Equating,
        Relation::Member | Relation::NotMember => Rule::Belonging,
        Relation::Subset | Relation::ProperSubset => Rule::Including,
        Relation::Less | Relation::AtMost | Relation::Greater | Relation::AtLeast => {
            Rule::Comparing
        }
    }
}

impl Rule {
    /// What the left operand has to be.
    pub fn left_need(self) -> Need
        ensures { result ≡ spec.left_need self }
    {
        match self {
            Rule::Arithmetic | Rule::Interval | Rule::Comparing => Need::Number,
            Rule::Pairing | Rule::Equating | Rule::Belonging => Need::Expression,
            Rule::SetFunction | Rule::DomainRestricting | Rule::Relating | Rule::Including => {
                Need::Set
            }
            Rule::Overriding
            | Rule::Composing
            | Rule::RangeRestricting
            | Rule::Applying
            | Rule::Imaging => Need::Relation,
            Rule::Connecting => Need::Predicate,
        }
    }

    /// What the right operand has to be.
    pub fn right_need(self) -> Need
        ensures { result ≡ spec.right_need self }
    {
        match self {
            Rule::Arithmetic | Rule::Interval | Rule::Comparing => Need::Number,
            Rule::Pairing | Rule::Equating | Rule::Applying => Need::Expression,
            Rule::SetFunction
            | Rule::RangeRestricting
            | Rule::Relating
            | Rule::Imaging
            | Rule::Belonging
            | Rule::Including => Need::Set,
            Rule::Overriding | Rule::Composing | Rule::DomainRestricting => Need::Relation,
            Rule::Connecting => Need::Predicate,
        }
    }
}

impl Unary {
    pub fn need(self) -> Need
        ensures { result ≡ spec.need_of self }
    {
        match self {
            Unary::Sign(sign) => sign_need(sign),
            Unary::Inverse => Need::Relation,
            Unary::Not => Need::Predicate,
        }
    }
}

fn sign_need(sign: Sign) -> Need
    ensures { result ≡ spec.sign_need sign }
{
    match sign {
        Sign::Minus => Need::Number,
        Sign::Symbol(prefix) => prefix_need(prefix),
    }
}

fn prefix_need(prefix: Prefix) -> Need
    ensures { result ≡ spec.prefix_need prefix }
{
    match prefix {
        Prefix::Power | Prefix::Finset | Prefix::Size => Need::Set,
        Prefix::Domain | Prefix::Range => Need::Relation,
    }
}
