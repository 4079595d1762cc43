//! A fact that a test is to find.
use std::test::Fail;

/// Fails, with these words, where it isn't so.
pub fn holds(fact: bool, otherwise: &str) -> Result<(), Fail> {
    if fact {
        Ok(())
    } else {
        Err(Fail::new(otherwise))
    }
}
