//! Limits: how many bindings or states are written at most.
ghost use Rattle.std.specs.Prelude.{IfOk, IsErrOf, MatchOption, option_map};
ghost use Rattle.zf_command.specs.{HasBadLimit, IsBadLimit, IsLimit, ReadsLimit};
ghost use Rattle.zf_command.specs.declared.job.UsageFault.TheVariants.{BadWords};

use crate::job::UsageFault;
use crate::numerals::number_of;

/// The greatest limit of `show`.
pub const LIMIT_MAX: u64 = 1_000_000_000;

/// The greatest limit of `reach`, and its limit where none is given.
pub const STATES_MAX: u64 = 1_000_000;

/// The limit of the option's value, if it was given.
pub fn limit_of(digits: Option<&str>, most: u64) -> Result<Option<u64>, UsageFault>
    ensures read { IfOk result (λ limit. IsLimit most (option_map (λ d. d.now) digits.entry) limit) }
    ensures refused { IsErrOf result BadWords → HasBadLimit most (option_map (λ d. d.now) digits.entry) }
{
    match digits {
        None => Ok(None),
        Some(digits) => match read_limit(digits, most) {
            Some(limit) => Ok(Some(limit)),
            None => Err(UsageFault::BadWords),
        },
    }
}

/// The limit that a text of digits spells.
fn read_limit(digits: &str, most: u64) -> Option<u64>
    ensures { MatchOption result (IsBadLimit most digits.now) (λ n. ReadsLimit most digits.now n) }
{
    let limit = number_of(digits)?;
    if 1 <= limit && limit <= most {
        return Some(limit);
    }
    None
}
