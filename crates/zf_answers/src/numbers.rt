//! The greatest number that a request states.
ghost use Rattle.std.specs.Prelude.{◌≡◌, IfErr, IfOk, OnOk};
ghost use Rattle.zf_answers.specs.{AreSmall, IfAnswered, TellsNumbers};

use crate::stop::Stop;
use std::alloc::Global;
use zf_lines::Status;
use zf_messages::texts;
use zf_value::SET_MAX;

/// The greatest number up to which `\num` has no more members than a set may have.
pub const NUMBERS_MAX: u64 = 32_767;

const _: () = prove!(NUMBERS_MAX == (SET_MAX as u64 - 1) / 2);

/// The greatest number that is stated, if one is. The answer where it is too large.
pub fn greatest_number(alloc: Global, stated: Option<u64>) -> Result<Option<u16>, Stop>
    ensures small { OnOk result (AreSmall stated) }
    ensures same { IfOk result (λ numbers. numbers ≡ stated) }
    ensures stop { IfErr result (λ s. IfAnswered s (TellsNumbers stated)) }
{
    let Some(number) = stated else {
        return Ok(None);
    };
    if number > NUMBERS_MAX {
        let message = texts::numbers_too_large(alloc)?;
        return Err(Stop::told(alloc, message, Status::BadRequest));
    }
    Ok(Some(number as u16))
}
