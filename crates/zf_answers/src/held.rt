//! The values that are held.
ghost use Rattle.std.specs.Prelude.{◌≡◌, IfOk, IfErr};
ghost use Rattle.zf_answers.specs.Prelude.{environment_of, schema_of, AreClear, spellings, HaveClearNames};
ghost use Rattle.zf_answers.specs.{AreHeld, IfAnswered, TellsNoValues};

use crate::inquiry::Inquiry;
use crate::stop::Stop;
use zf_lines::Status;
use zf_meaning::Env;
use zf_messages::texts;
use zf_print::Spelling;
use zf_read::{AfterFault, read_held};
use zf_term::Flat;
use zf_value::Value;

/// The values that are held, by the components' places, if a line of some components is given. The answer where the
/// text is no such line.
pub fn values_held(
    inquiry: Inquiry<'_>,
    flat: &Flat<'_>,
    env: &Env<'_, '_>,
    elements: &[Spelling],
) -> Result<Vec<Option<Value>>, Stop>
    requires { elements.now ≡ spellings (environment_of env.now).globals }
    ensures held { IfOk result (λ values. AreHeld (environment_of env.now) (schema_of flat.now).comps inquiry.entry.request.now.held values.items) }
    ensures stop { IfErr result (λ s. AreClear elements.now (environment_of env.now).sizes → HaveClearNames (schema_of flat.now).comps → IfAnswered s (TellsNoValues inquiry.entry.request.now.details (environment_of env.now) (schema_of flat.now).comps inquiry.entry.request.now.held)) }
{
    let alloc = inquiry.alloc;
    let Some(text) = &inquiry.request.held else {
        return Ok(Vec::new(alloc));
    };
    match read_held(alloc, text.as_bytes(), flat, env, elements) {
        Ok(values) => Ok(values),
        Err(AfterFault::NotABinding(place, expected)) => {
            let expected = expected.text(alloc)?;
            let details = inquiry.request.details;
            let message = texts::not_held(alloc, place, details, expected.as_slice())?;
            Err(Stop::told(alloc, message, Status::BadRequest))
        }
        Err(AfterFault::OutOfMemory) => Err(Stop::OutOfMemory),
    }
}
