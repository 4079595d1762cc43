//! What is known of a tree from what is known of its sides.
ghost use Rattle.std.specs.Prelude.{◌≡◌};
ghost use Rattle.zf_plan.specs.{conjoined, joined, known_both, known_either, known_not};

use zf_walk::Truth;

pub fn not(of: Option<Truth>) -> Option<Truth>
    ensures { result ≡ known_not of }
{
    match of {
        None => None,
        Some(Truth::True) => Some(Truth::False),
        Some(Truth::False) => Some(Truth::True),
        Some(Truth::Out) => Some(Truth::Out),
    }
}

pub fn both(left: Option<Truth>, right: Option<Truth>) -> Option<Truth>
    ensures { result ≡ known_both left right }
{
    match left {
        None => match right {
            None => None,
            Some(Truth::True) => None,
            Some(Truth::False) => Some(Truth::False),
            Some(Truth::Out) => None,
        },
        Some(Truth::True) => right,
        Some(Truth::False) => Some(Truth::False),
        Some(Truth::Out) => match right {
            None => None,
            Some(Truth::True) => Some(Truth::Out),
            Some(Truth::False) => Some(Truth::False),
            Some(Truth::Out) => Some(Truth::Out),
        },
    }
}

pub fn either(left: Option<Truth>, right: Option<Truth>) -> Option<Truth>
    ensures { result ≡ known_either left right }
{
    not(both(not(left), not(right)))
}

/// The truth of several conjuncts from those of the first ones and of the last.
pub fn conjoin(first: Truth, last: Truth) -> Truth
    ensures { result ≡ conjoined first last }
{
    match first {
        Truth::True => last,
        Truth::False => Truth::False,
        Truth::Out => match last {
            Truth::True => Truth::Out,
            Truth::False => Truth::False,
            Truth::Out => Truth::Out,
        },
    }
}

/// The same where the last may not be known.
pub fn join(first: Truth, last: Option<Truth>) -> Truth
    ensures { result ≡ joined first last }
{
    match last {
        None => first,
        Some(truth) => conjoin(first, truth),
    }
}
