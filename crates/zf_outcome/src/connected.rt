//! What connectives and quantifiers tell of two truths.
ghost use Rattle.std.specs.Prelude.{◌≡◌};
ghost use Rattle.zf_outcome.specs.Truths as spec;
ghost use Rattle.zf_outcome.specs.Connected as connected;

use zf_tree::{Connective, Quantifier};
use zf_value::Truth;

pub fn opposite(p: Truth) -> Truth
    ensures { result ≡ spec.opposite p }
{
    match p {
        Truth::True => Truth::False,
        Truth::False => Truth::True,
        Truth::Out => Truth::Out,
    }
}

/// The truth of a connective where its left side decides.
pub fn decided(connective: Connective, p: Truth) -> Option<Truth>
    ensures { result ≡ connected.decided connective p }
{
    match (connective, p) {
        (Connective::And, Truth::False) => Some(Truth::False),
        (Connective::Or, Truth::True) => Some(Truth::True),
        (Connective::Implies, Truth::False) => Some(Truth::True),
        (Connective::Iff, Truth::Out) => Some(Truth::Out),
        _ => None,
    }
}

pub fn connected(connective: Connective, p: Truth, q: Truth) -> Truth
    ensures { result ≡ connected.connected connective p q }
{
    match connective {
        Connective::And => conjunction(p, q),
        Connective::Or => disjunction(p, q),
        Connective::Implies => disjunction(opposite(p), q),
        Connective::Iff => equivalence(p, q),
    }
}

/// The connective between the constraint and the body of a quantifier.
pub fn connective_of(quantifier: Quantifier) -> Connective
    ensures { result ≡ connected.connective_of quantifier }
{
    match quantifier {
        Quantifier::ForAll => Connective::Implies,
        Quantifier::Exists => Connective::And,
        Quantifier::ExistsOne => Connective::And,
    }
}

pub fn conjunction(p: Truth, q: Truth) -> Truth
    ensures { result ≡ connected.conjunction p q }
{
    match p {
        Truth::False => Truth::False,
        Truth::True => q,
        Truth::Out => match q {
            Truth::False => Truth::False,
            Truth::True => Truth::Out,
            Truth::Out => Truth::Out,
        },
    }
}

fn disjunction(p: Truth, q: Truth) -> Truth
    ensures { result ≡ connected.disjunction p q }
{
    match p {
        Truth::True => Truth::True,
        Truth::False => q,
        Truth::Out => match q {
            Truth::True => Truth::True,
            Truth::False => Truth::Out,
            Truth::Out => Truth::Out,
        },
    }
}

fn equivalence(p: Truth, q: Truth) -> Truth
    ensures { result ≡ connected.equivalence p q }
{
    match p {
        Truth::Out => Truth::Out,
        Truth::True => q,
        Truth::False => opposite(q),
    }
}
