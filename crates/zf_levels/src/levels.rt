//! The levels of the grammar, the loosest first, and where symbols stand in them.
ghost use Rattle.std.specs.Prelude.{◌≡◌, ◌≤◌};
ghost use Rattle.zf_levels.specs.Levels as levels;
ghost use Rattle.zf_tree.specs.{tree_of};

use zf_tree::{Connective, Infix, Listed, Operator, Prefix, Sign, Term, Unary};

/// A quantifier; the place of any term.
pub const QUANTIFIER: u8 = 0;

const NEGATION: u8 = 5;

/// A chain of relations.
pub const CHAIN: u8 = 6;

/// Infix generics; the place of any expression.
pub const EXPRESSION: u8 = 7;

/// `\cross`.
pub const PRODUCT: u8 = 8;

/// `\power`, `\finset` and the minus of one number.
const POWER: u8 = 15;

const APPLICATION: u8 = 16;

const PREFIX: u8 = 17;

/// Inverses and relational images.
pub const POSTFIX: u8 = 18;

const ATOM: u8 = 19;

/// The higher the level, the more tightly a symbol binds.
fn connective_level(connective: Connective) -> u8
    ensures value { result ≡ levels.connective_level connective }
    ensures small { result ≤ 4 }
{
    match connective {
        Connective::Iff => 1,
        Connective::Implies => 2,
        Connective::Or => 3,
        Connective::And => 4,
    }
}

fn infix_level(op: Infix) -> u8
    ensures value { result ≡ levels.infix_level op }
    ensures small { result ≤ 14 }
{
    match op {
        Infix::Maplet => 9,
        Infix::UpTo => 10,
        Infix::Plus | Infix::Minus | Infix::Union | Infix::Difference => 11,
        Infix::Times | Infix::Div | Infix::Mod | Infix::Intersection | Infix::Composition => 12,
        Infix::Overriding => 13,
        Infix::DomainRestriction | Infix::RangeRestriction => 14,
        Infix::DomainSubtraction | Infix::RangeSubtraction => 14,
    }
}

fn sign_level(sign: Sign) -> u8
    ensures { result ≡ levels.sign_level sign }
{
    match sign {
        Sign::Minus | Sign::Symbol(Prefix::Power | Prefix::Finset) => POWER,
        Sign::Symbol(Prefix::Domain | Prefix::Range | Prefix::Size) => PREFIX,
    }
}

/// The level of a term over one operand, and the operand's place.
pub fn unary_level(op: Unary) -> u8
    ensures { result ≡ levels.unary_level op }
{
    match op {
        Unary::Sign(sign) => sign_level(sign),
        Unary::Inverse => POSTFIX,
        Unary::Not => NEGATION,
    }
}

/// The level of a term over two operands.
pub fn operator_level(op: Operator) -> u8
    ensures value { result ≡ levels.operator_level op }
    ensures small { result ≤ 18 }
{
    match op {
        Operator::Function(op) => infix_level(op),
        Operator::Generic(_) => EXPRESSION,
        Operator::Connective(connective) => connective_level(connective),
        Operator::Application => APPLICATION,
        Operator::Image => POSTFIX,
    }
}

/// Where the left operand stands: tighter than an operator to the right.
pub fn left_place(op: Operator) -> u8
    ensures { result ≡ levels.left_place op }
{
    match op {
        Operator::Generic(_) | Operator::Connective(Connective::Implies) => operator_level(op) + 1,
        _ => operator_level(op),
    }
}

/// Where the right operand stands.
pub fn right_place(op: Operator) -> u8
    ensures { result ≡ levels.right_place op }
{
    match op {
        Operator::Generic(_) | Operator::Connective(Connective::Implies) => operator_level(op),
        Operator::Application => POSTFIX,
        Operator::Image => EXPRESSION,
        _ => operator_level(op) + 1,
    }
}

fn listed_level(form: Listed) -> u8
    ensures { result ≡ levels.listed_level form }
{
    match form {
        Listed::Tuple | Listed::Display => ATOM,
        Listed::Product => PRODUCT,
    }
}

/// Where the terms of a list stand.
pub fn member_place(form: Listed) -> u8
    ensures { result ≡ levels.member_place form }
{
    match form {
        Listed::Tuple | Listed::Display => EXPRESSION,
        Listed::Product => PRODUCT + 1,
    }
}

/// The level of a term.
#[tactic(auto, using(zf_tree::proofs::TermSeen::seen))]
pub fn level(term: &Term<'_>) -> u8
    ensures { result ≡ levels.level (tree_of term.now) }
{
    match term {
        Term::Quantified(_, _, _, _, _) => QUANTIFIER,
        Term::Unary(_, op, _) => unary_level(*op),
        Term::Binary(_, op, _, _) => operator_level(*op),
        Term::Listed(_, form, _) => listed_level(*form),
        Term::Chain(_, _, _) => CHAIN,
        Term::Name(_, _) => ATOM,
        Term::Number(_, _) => ATOM,
        Term::Constant(_, _) => ATOM,
        Term::EmptySet(_, _) => ATOM,
        Term::Bracket(_, _) => ATOM,
        Term::Comprehension(_, _, _, _) => ATOM,
    }
}
