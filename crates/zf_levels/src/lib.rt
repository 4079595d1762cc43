//! The levels of the grammar: how tightly each term binds, and where the operands of each symbol stand.
#![tactic(auto)]

mod levels;

pub use levels::{
    CHAIN, EXPRESSION, POSTFIX, PRODUCT, QUANTIFIER, left_place, level, member_place,
    operator_level, right_place, unary_level,
};
