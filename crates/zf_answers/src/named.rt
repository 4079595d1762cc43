//! The binding that a search comes after.
ghost use Rattle.std.specs.Prelude.{◌≡◌, IfOk, IfErr, option_map};
ghost use Rattle.zf_answers.specs.Prelude.{environment_of, schema_of, AreClear, spellings};
ghost use Rattle.zf_answers.specs.{IfAnswered, IsNamedRow, TellsNoRow};

use crate::inquiry::Inquiry;
use crate::stop::Stop;
use zf_lines::Status;
use zf_meaning::Env;
use zf_messages::texts;
use zf_print::Spelling;
use zf_read::{AfterFault, read_binding};
use zf_term::Flat;
use zf_value::Value;

/// The row that is named, if one is. The answer where the text is no line of a row.
pub fn named_row(
    inquiry: Inquiry<'_>,
    flat: &Flat<'_>,
    env: &Env<'_, '_>,
    elements: &[Spelling],
) -> Result<Option<Vec<Value>>, Stop>
    requires { elements.now ≡ spellings (environment_of env.now).globals }
    ensures named { IfOk result (λ row. IsNamedRow (environment_of env.now) (schema_of flat.now).comps inquiry.entry.request.now.after (option_map (λ v. v.items) row)) }
    ensures stop { IfErr result (λ s. AreClear elements.now (environment_of env.now).sizes → IfAnswered s (TellsNoRow inquiry.entry.request.now.details (environment_of env.now) (schema_of flat.now).comps inquiry.entry.request.now.after)) }
{
    let alloc = inquiry.alloc;
    let Some(text) = &inquiry.request.after else {
        return Ok(None);
    };
    match read_binding(alloc, text.as_bytes(), flat, env, elements) {
        Ok(row) => Ok(Some(row)),
        Err(AfterFault::NotABinding(place, expected)) => {
            let expected = expected.text(alloc)?;
            let details = inquiry.request.details;
            let message = texts::not_a_binding(alloc, place, details, expected.as_slice())?;
            Err(Stop::told(alloc, message, Status::BadRequest))
        }
        Err(AfterFault::OutOfMemory) => Err(Stop::OutOfMemory),
    }
}
