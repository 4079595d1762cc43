//! What a source defines, its faults, and the answer of `check`.
ghost use Rattle.std.specs.Prelude.{◌≡◌, [], IfOk, IfErr, map};
ghost use Rattle.zf_answers.specs.Prelude.{AreFaultMessages, cited_of, globals_of};
ghost use Rattle.zf_answers.specs.{check_status, CheckAnswer, Checks, IfAnswered, IsCheckText, IsTextFault, IsUnfit, UnreadAnswer};
ghost use Rattle.zf_sorts.specs.{fault_of};

use crate::stop::Stop;
use bumpalo::Bump;
use std::alloc::{AllocError, Global};
use zf_checker::listing::listing;
use zf_checker::{Checked, check_spec};
use zf_data::Items;
use zf_format::Format;
use zf_lines::Status;
use zf_messages::{
    Asides, Known, Message, Report, messages_text, text_fault_message, type_fault_message,
};
use zf_parse::{About, read_spec};
use zf_scan::{TextFault, TextFaultKind};
use zf_sorts::TypeFault;
use zf_term::Globals;

/// What a source defines, and its faults of types. Its trees stand in an arena of their own, which asks for its room while the
/// symbols of the source still have theirs: what is made of the trees gets the room of the symbols.
pub fn check_source<'a>(
    alloc: Global,
    trees: &'a Bump,
    arena: &'a Bump,
    report: Report<'a>,
) -> Result<Checked<'a>, Stop>
    ensures checks { IfOk result (λ c. Checks report.entry.source.now (globals_of c.globals) (map fault_of c.faults)) }
    ensures stop { IfErr result (λ s. IfAnswered s (UnreadAnswer report.entry.details report.entry.source.now)) }
{
    match read_spec(alloc, trees, report.source) {
        Ok(spec) => Ok(check_spec(alloc, arena, &spec)?),
        Err(unread) => Err(refusal(alloc, report, unread.fault, &unread.about)),
    }
}

/// The answer for a fault of a text, which is about these symbols.
fn refusal(alloc: Global, report: Report<'_>, fault: TextFault, about: &About<'_>) -> Stop
    ensures { IfAnswered result (IsTextFault report.entry.details report.entry.source.now fault (cited_of about.now)) }
{
    if fault.kind == TextFaultKind::OutOfMemory {
        return Stop::OutOfMemory;
    }
    match text_fault_message(alloc, report, fault, about) {
        Ok(message) => Stop::told(alloc, message, Status::BadSpec),
        Err(_) => Stop::OutOfMemory,
    }
}

/// The answer of `check` for a source. That it is not read is reported.
pub fn checked(
    alloc: Global,
    types: bool,
    format: Format,
    report: Report<'_>,
) -> Result<(Vec<u8>, Status), Stop>
    ensures answer { IfOk result (λ p. CheckAnswer types report.entry.details format report.entry.file.now report.entry.source.now p.0.items p.1) }
    ensures stop { IfErr result (λ s. IfAnswered s (UnreadAnswer report.entry.details report.entry.source.now)) }
{
    let trees = Bump::new(alloc);
    let arena = Bump::new(alloc);
    let checked = check_source(alloc, &trees, &arena, report)?;
    let text = check_text(alloc, types, format, report, &checked)?;
    Ok((text, check_status(checked.faults.as_slice())))
}

/// The messages of the faults, and the listing, if it is asked for.
fn check_text(
    alloc: Global,
    types: bool,
    format: Format,
    report: Report<'_>,
    checked: &Checked<'_>,
) -> Result<Vec<u8>, AllocError>
    ensures { IfOk result (λ v. IsCheckText types report.entry.details format report.entry.file.now report.entry.source.now (globals_of checked.now.globals) (map fault_of checked.now.faults) v.items) }
{
    let messages = fault_messages(alloc, report, checked.faults.as_slice())?;
    let mut text = messages_text(alloc, format, report.file, messages.as_slice())?;
    if types {
        let defined = listing(alloc, &checked.globals)?;
        text.extend_from_slice(defined.as_slice())?;
    }
    Ok(text)
}

/// A text with a fault is a bad specification.
fn check_status(faults: &[TypeFault<'_>]) -> Status
    ensures { result ≡ check_status (map fault_of faults.now) }
{
    if faults.is_empty() {
        Status::Done
    } else {
        Status::BadSpec
    }
}

/// The messages of faults.
fn fault_messages(
    alloc: Global,
    report: Report<'_>,
    faults: &[TypeFault<'_>],
) -> Result<Items<Message>, AllocError>
    ensures { IfOk result (AreFaultMessages report.entry.details report.entry.source.now (map fault_of faults.now)) }
{
    let asides = Asides::of(alloc, report, faults)?;
    let mut known = Known::start();
    let mut messages = Items::new(alloc);
    for fault in faults {
        let aside = asides.aside(fault);
        let message = type_fault_message(alloc, report, &mut known, fault, &aside)?;
        messages.push(message)?;
    }
    Ok(messages)
}

/// What a source that is well typed defines.
pub fn load<'a>(
    alloc: Global,
    trees: &'a Bump,
    arena: &'a Bump,
    report: Report<'a>,
) -> Result<Globals<'a>, Stop>
    ensures checks { IfOk result (λ g. Checks report.entry.source.now (globals_of g) []) }
    ensures stop { IfErr result (λ s. IfAnswered s (IsUnfit report.entry.details report.entry.source.now)) }
{
    let checked = check_source(alloc, trees, arena, report)?;
    if !checked.faults.as_slice().is_empty() {
        let messages = fault_messages(alloc, report, checked.faults.as_slice())?;
        return Err(Stop::Answered(messages, Status::BadSpec));
    }
    Ok(checked.globals)
}
