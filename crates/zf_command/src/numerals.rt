//! Numbers that texts of digits spell.
ghost use Rattle.std.specs.Prelude.{◌↔◌, IfOk, IsErrOf, IsTrue, MatchOption, EachIndex, option_map, slice_index};
ghost use Rattle.std.specs.Int.{IsInRange};
ghost use Rattle.std.specs.Str.Parse.{IsNumeral};
ghost use Rattle.zf_command.specs.{HasBadNumber, IsNumberOf, ReadsNumber};
ghost use Rattle.zf_command.specs.declared.job.UsageFault.TheVariants.{BadWords};

use crate::job::UsageFault;

/// The number of an option's value, if it was given.
pub fn given_number(digits: Option<&str>) -> Result<Option<u64>, UsageFault>
    ensures read { IfOk result (λ number. IsNumberOf (option_map (λ d. d.now) digits.entry) number) }
    ensures refused { IsErrOf result BadWords → HasBadNumber (option_map (λ d. d.now) digits.entry) }
{
    match digits {
        None => Ok(None),
        Some(digits) => match number_of(digits) {
            Some(number) => Ok(Some(number)),
            None => Err(UsageFault::BadWords),
        },
    }
}

/// The number that a text of digits spells.
pub fn number_of(digits: &str) -> Option<u64>
    ensures { MatchOption result (¬ (IsNumeral 10 digits.now)) (λ n. ReadsNumber digits.now n) }
{
    if !is_numeral(digits) {
        return None;
    }
    match digits.parse::<u64>() {
        Ok(number) => Some(number),
        Err(_) => Some(u64::MAX),
    }
}

/// Whether the text is one digit or more, and nothing else.
fn is_numeral(text: &str) -> bool
    ensures { IsTrue result ↔ IsNumeral 10 text.now }
{
    !text.is_empty() && has_only_digits(text.as_bytes())
}

fn has_only_digits(bytes: &[u8]) -> bool
    ensures { IsTrue result ↔ EachIndex bytes.now (λ k. IsInRange 48 57 (slice_index bytes.now k)) }
{
    bytes.iter().all(|b| b.is_ascii_digit())
}
