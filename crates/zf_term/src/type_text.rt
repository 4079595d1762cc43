//! Types as they are printed.
ghost use Rattle.std.specs.Prelude.{◌≡◌, ◌++◌, IfOk, OnOk, map};
ghost use Rattle.zf_term.specs.TypeTexts as spec;
ghost use Rattle.zf_term.specs.{type_of, types};

use crate::ztype::ZType;
use std::alloc::{AllocError, Global};
use zf_data::Text;

/// The text of a type.
pub fn type_text(alloc: Global, ztype: &ZType<'_>) -> Result<Text, AllocError>
    ensures { IfOk result (λ t. t ≡ spec.type_text (type_of ztype.now)) }
{
    let mut bytes = Vec::new(alloc);
    append_type(&mut bytes, ztype)?;
    Text::of(alloc, bytes.as_slice())
}

/// Appends the text of a type. A refusal leaves a part of it.
#[cycle(append)]
#[tactic(auto, using(crate::proofs::TypesSeen::seen))]
pub fn append_type(text: &mut Vec<u8>, ztype: &ZType<'_>) -> Result<(), AllocError>
    ensures { OnOk result (text.new.items ≡ text.old.items ++ spec.type_text (type_of ztype.now)) }
{
    match ztype {
        ZType::Int => text.extend_from_slice(b"\\num"),
        ZType::Basic(name) => text.extend_from_slice(name.as_slice()),
        ZType::Power(member) => {
            text.extend_from_slice(b"\\power ")?;
            append_type(text, member.get())
        }
        ZType::Product(parts) => {
            text.extend_from_slice(b"(")?;
            append_parts(text, parts.get().as_slice())?;
            text.extend_from_slice(b")")
        }
    }
}

#[cycle(append)]
fn append_parts(text: &mut Vec<u8>, parts: &[ZType<'_>]) -> Result<(), AllocError>
    ensures { OnOk result (text.new.items ≡ text.old.items ++ spec.parts_text (types (map type_of parts.now))) }
{
    for i in 0..parts.len() {
        if i > 0 {
            text.extend_from_slice(b" \\cross ")?;
        }
        append_type(text, &parts[i])?;
    }
    Ok(())
}
