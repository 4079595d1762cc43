//! The symbols of terms, one value for each.

/// A function symbol between two expressions.
#[derive(Clone, Copy, Debug)]
pub enum Infix {
    /// `\mapsto`
    Maplet,
    /// `\upto`
    UpTo,
    /// `+`
    Plus,
    /// `-`, which is also a prefix symbol
    Minus,
    /// `\cup`
    Union,
    /// `\setminus`
    Difference,
    /// `*`
    Times,
    /// `\div`
    Div,
    /// `\mod`
    Mod,
    /// `\cap`
    Intersection,
    /// `\comp`
    Composition,
    /// `\oplus`
    Overriding,
    /// `\dres`
    DomainRestriction,
    /// `\rres`
    RangeRestriction,
    /// `\ndres`
    DomainSubtraction,
    /// `\nrres`
    RangeSubtraction,
}

/// A generic symbol between two sets: the relations or functions from one to the other.
#[derive(Clone, Copy, Debug)]
pub enum Arrow {
    /// `\rel`
    Relation,
    /// `\pfun`
    PartialFunction,
    /// `\fun`
    TotalFunction,
    /// `\pinj`
    PartialInjection,
    /// `\inj`
    TotalInjection,
}

/// A symbol before one expression. The minus sign before an expression is `Infix::Minus` as a token.
#[derive(Clone, Copy, Debug)]
pub enum Prefix {
    /// `\power`
    Power,
    /// `\finset`
    Finset,
    /// `\dom`
    Domain,
    /// `\ran`
    Range,
    /// `\#`
    Size,
}

/// A symbol that is a term by itself.
#[derive(Clone, Copy, Debug)]
pub enum Constant {
    /// `true`
    True,
    /// `false`
    False,
    /// `\num`
    Integers,
    /// `\nat`
    Naturals,
    /// `\nat_1`
    Positives,
}

/// A relation between two expressions.
#[derive(Clone, Copy, Debug)]
pub enum Relation {
    /// `=`
    Equal,
    /// `\neq`
    NotEqual,
    /// `\in`
    Member,
    /// `\notin`
    NotMember,
    /// `\subseteq`
    Subset,
    /// `\subset`
    ProperSubset,
    /// `<`
    Less,
    /// `\leq`
    AtMost,
    /// `>`
    Greater,
    /// `\geq`
    AtLeast,
}

/// A connective between two predicates; `\land` and `\lor` also stand between schema expressions.
#[derive(Clone, Copy, Debug)]
pub enum Connective {
    /// `\land`
    And,
    /// `\lor`
    Or,
    /// `\implies`
    Implies,
    /// `\iff`
    Iff,
}

/// A quantifier.
#[derive(Clone, Copy, Debug)]
pub enum Quantifier {
    /// `\forall`
    ForAll,
    /// `\exists`
    Exists,
    /// `\exists_1`
    ExistsOne,
}
