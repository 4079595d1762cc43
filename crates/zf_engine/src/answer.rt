//! What is written of a job on a source.
ghost use Rattle.std.specs.Prelude.{◌≡◌, true, IfOk, None, OnErr, Some};
ghost use Rattle.zf_engine.specs.Prelude.{option_copied, Check, IsBare, Why, device_of, failures_of, HasLimit, read_failures, write_failures, environment_of, schema_of};
ghost use Rattle.zf_answers.specs.{AnswersRequest, AreNamedIn, environment_in, IsAsked, IsChosenBy, IsNamedRow, IsSubjectOf, schema_in};
ghost use Rattle.zf_engine.specs.{AnswersSource, IsLimited, Shows, StopsInSource, Writes};

use crate::reach::reach_source;
use bumpalo::Bump;
use std::alloc::Global;
use std::io::Write;
use zf_answers::begin::{begin, begin_counting};
use zf_answers::{
    Asked, Bounds, Chosen, Inquiry, Stop, Subject, bounds_in, checked, find_schema, load, tell,
    why_source, write_whole,
};
use zf_command::{Job, Request};
use zf_format::Format;
use zf_lines::show::{show, show_with_tests};
use zf_lines::{Counted, RunFault, Status, Style};
use zf_meaning::Env;
use zf_messages::Report;
use zf_parts::{Parts, are_first, show_fronts, show_parts};
use zf_print::spellings_of;
use zf_term::Flat;
use zf_value::Value;

/// Writes the answer of a job for a source, as it is found.
pub fn answer<W: Write>(
    alloc: Global,
    job: &Job,
    file_name: &str,
    source: &[u8],
    writer: &mut Counted<W>,
) -> Result<Status, RunFault>
    requires unfailed { failures_of writer.old ≡ 0 }
    requires limited { IsLimited job.now }
    ensures answered { IfOk result (λ status. AnswersSource job.now file_name.now source.now (W.contents (device_of writer.old)) (W.contents (device_of writer.new)) status) }
    ensures stopped { OnErr result (StopsInSource job.now file_name.now source.now (W.contents (device_of writer.old)) (W.contents (device_of writer.new))) }
    ensures count { failures_of writer.new ≡ write_failures result }
    ensures unread { read_failures result ≡ 0 }
{
    let file = file_name.as_bytes();
    match job {
        Job::Check {
            types,
            details,
            format,
        } => {
            let report = Report {
                source,
                file,
                details: *details,
            };
            check_reported(alloc, *types, *format, report, writer)
        }
        Job::Show(request) => show_source(alloc, request, file, source, writer),
        Job::Why(request) => explain_source(alloc, request, file, source, writer),
        Job::Reach(exploration) => reach_source(alloc, exploration, file, source, writer),
    }
}

/// Writes the answer of `check` for a source.
fn check_reported<W: Write>(
    alloc: Global,
    types: bool,
    format: Format,
    report: Report<'_>,
    writer: &mut Counted<W>,
) -> Result<Status, RunFault>
    requires unfailed { failures_of writer.old ≡ 0 }
    ensures checks { Writes (Check types report.entry.details format) report.entry.file.now report.entry.source.now (W.contents (device_of writer.old)) (W.contents (device_of writer.new)) result }
    ensures count { failures_of writer.new ≡ write_failures result }
    ensures unread { read_failures result ≡ 0 }
{
    match checked(alloc, types, format, report) {
        Ok((text, status)) => write_whole(&text, status, writer),
        Err(stop) => tell(alloc, format, report.file, stop, writer),
    }
}

/// Writes the answer of `why` for a source.
fn explain_source<W: Write>(
    alloc: Global,
    request: &Request,
    file: &[u8],
    source: &[u8],
    writer: &mut Counted<W>,
) -> Result<Status, RunFault>
    requires unfailed { failures_of writer.old ≡ 0 }
    requires plain { IsBare request.now }
    ensures explains { Writes (Why request.now) file.now source.now (W.contents (device_of writer.old)) (W.contents (device_of writer.new)) result }
    ensures count { failures_of writer.new ≡ write_failures result }
    ensures unread { read_failures result ≡ 0 }
{
    match why_source(alloc, request, file, source) {
        Ok((text, status)) => write_whole(&text, status, writer),
        Err(stop) => tell(alloc, request.format, file, stop, writer),
    }
}

/// Writes the answer of `show` for a source.
fn show_source<W: Write>(
    alloc: Global,
    request: &Request,
    file: &[u8],
    source: &[u8],
    writer: &mut Counted<W>,
) -> Result<Status, RunFault>
    requires unfailed { failures_of writer.old ≡ 0 }
    requires limited { HasLimit request.now.limit }
    ensures shows { Shows request.now file.now source.now (W.contents (device_of writer.old)) (W.contents (device_of writer.new)) result }
    ensures count { failures_of writer.new ≡ write_failures result }
    ensures unread { read_failures result ≡ 0 }
{
    let trees = Bump::new(alloc);
    let arena = Bump::new(alloc);
    let report = Report {
        source,
        file,
        details: request.details,
    };
    let inquiry = Inquiry {
        alloc,
        request,
        report,
    };
    let globals = match load(alloc, &trees, &arena, report) {
        Ok(globals) => globals,
        Err(stop) => return refuse(inquiry, stop, writer),
    };
    match find_schema(alloc, &globals, request, report) {
        Ok(Asked { schema, env }) => show_schema(inquiry, &arena, schema, &env, writer),
        Err(stop) => refuse(inquiry, stop, writer),
    }
}

/// Writes what is reported where a request is refused.
fn refuse<W: Write>(
    inquiry: Inquiry<'_>,
    stop: Stop,
    writer: &mut Counted<W>,
) -> Result<Status, RunFault>
    requires unfailed { failures_of writer.old ≡ 0 }
    requires answers { AnswersRequest inquiry.request.now inquiry.report.source.now stop }
    ensures shows { Shows inquiry.entry.request.now inquiry.entry.report.file.now inquiry.entry.report.source.now (W.contents (device_of writer.old)) (W.contents (device_of writer.new)) result }
    ensures count { failures_of writer.new ≡ write_failures result }
    ensures unread { read_failures result ≡ 0 }
{
    tell(
        inquiry.alloc,
        inquiry.request.format,
        inquiry.report.file,
        stop,
        writer,
    )
}

/// Writes the answer of `show` for a finite schema in an environment.
fn show_schema<'a, W: Write>(
    inquiry: Inquiry<'_>,
    arena: &'a Bump,
    schema: &Flat<'a>,
    env: &Env<'_, 'a>,
    writer: &mut Counted<W>,
) -> Result<Status, RunFault>
    requires unfailed { failures_of writer.old ≡ 0 }
    requires limited { HasLimit inquiry.request.now.limit }
    requires asked { IsAsked inquiry.request.now inquiry.report.source.now (environment_of env.now).globals (schema_of schema.now) (environment_of env.now) }
    ensures shows { Shows inquiry.entry.request.now inquiry.entry.report.file.now inquiry.entry.report.source.now (W.contents (device_of writer.old)) (W.contents (device_of writer.new)) result }
    ensures count { failures_of writer.new ≡ write_failures result }
    ensures unread { read_failures result ≡ 0 }
{
    let elements = spellings_of(inquiry.alloc, env.globals())?;
    let style = Style {
        alloc: inquiry.alloc,
        format: inquiry.request.format,
        elements: &elements,
    };
    match bounds_in(inquiry, arena, schema, env, &elements) {
        Ok(bounds) => {
            let subject = Subject {
                arena,
                schema,
                env,
                style: &style,
                held: &bounds.held,
            };
            show_within(inquiry, &subject, &bounds, writer)
        }
        Err(stop) => refuse(inquiry, stop, writer),
    }
}

/// Writes what is asked for of the bindings of a schema.
fn show_within<'p, 'a, W: Write>(
    inquiry: Inquiry<'_>,
    subject: &Subject<'p, '_, 'a>,
    bounds: &'p Bounds<'p, 'a>,
    writer: &mut Counted<W>,
) -> Result<Status, RunFault>
    requires unfailed { failures_of writer.old ≡ 0 }
    requires limited { HasLimit inquiry.request.now.limit }
    requires subject { IsSubjectOf inquiry.request.now inquiry.report.source.now subject.now }
    requires named { AreNamedIn (environment_in subject.now) (schema_in subject.now).comps inquiry.request.now bounds.now }
    ensures shows { Shows inquiry.entry.request.now inquiry.entry.report.file.now inquiry.entry.report.source.now (W.contents (device_of writer.old)) (W.contents (device_of writer.new)) result }
    ensures count { failures_of writer.new ≡ write_failures result }
    ensures unread { read_failures result ≡ 0 }
{
    let after = bounds.after.as_deref();
    match &bounds.chosen {
        None => show_after(inquiry, subject, after, writer),
        Some(chosen) => show_chosen(inquiry, subject, chosen, after, writer),
    }
}

/// Writes what the chosen components have in the bindings of a schema, of that what comes after a row of theirs, if one is
/// named.
fn show_chosen<'p, 'a, W: Write>(
    inquiry: Inquiry<'_>,
    subject: &Subject<'p, '_, 'a>,
    chosen: &'p Chosen<'p, 'a>,
    after: Option<&'p [Value]>,
    writer: &mut Counted<W>,
) -> Result<Status, RunFault>
    requires unfailed { failures_of writer.old ≡ 0 }
    requires limited { HasLimit inquiry.request.now.limit }
    requires subject { IsSubjectOf inquiry.request.now inquiry.report.source.now subject.now }
    requires chosen { IsChosenBy (schema_in subject.now).comps inquiry.request.now.only (Some chosen.now) }
    requires named { IsNamedRow (environment_in subject.now) (schema_of chosen.now.schema.now).comps inquiry.request.now.after (option_copied after) }
    ensures shows { Shows inquiry.entry.request.now inquiry.entry.report.file.now inquiry.entry.report.source.now (W.contents (device_of writer.old)) (W.contents (device_of writer.new)) result }
    ensures count { failures_of writer.new ≡ write_failures result }
    ensures unread { read_failures result ≡ 0 }
{
    let parts = Parts {
        flat: subject.schema,
        places: &chosen.places,
        schema: chosen.schema,
        after,
    };
    match begin(subject, None) {
        Ok(mut search) => {
            let limit = inquiry.request.limit;
            if are_first(parts.places, parts.schema.components.len()) {
                return show_fronts(subject.style, parts, &mut search, limit, writer);
            }
            show_parts(subject.style, parts, &mut search, limit, writer)
        }
        Err(stop) => refuse(inquiry, stop, writer),
    }
}

/// Writes the bindings of a schema that come after a row, if one is named.
fn show_after<W: Write>(
    inquiry: Inquiry<'_>,
    subject: &Subject<'_, '_, '_>,
    after: Option<&[Value]>,
    writer: &mut Counted<W>,
) -> Result<Status, RunFault>
    requires unfailed { failures_of writer.old ≡ 0 }
    requires limited { HasLimit inquiry.request.now.limit }
    requires subject { IsSubjectOf inquiry.request.now inquiry.report.source.now subject.now }
    requires all { inquiry.request.now.only ≡ None }
    requires named { IsNamedRow (environment_in subject.now) (schema_in subject.now).comps inquiry.request.now.after (option_copied after) }
    ensures shows { Shows inquiry.entry.request.now inquiry.entry.report.file.now inquiry.entry.report.source.now (W.contents (device_of writer.old)) (W.contents (device_of writer.new)) result }
    ensures count { failures_of writer.new ≡ write_failures result }
    ensures unread { read_failures result ≡ 0 }
{
    if inquiry.request.tests {
        return count_after(inquiry, subject, after, writer);
    }
    match begin(subject, after) {
        Ok(mut search) => {
            let limit = inquiry.request.limit;
            show(subject.style, subject.schema, &mut search, limit, writer)
        }
        Err(stop) => refuse(inquiry, stop, writer),
    }
}

/// The same of a request that asks for the number of tests.
fn count_after<W: Write>(
    inquiry: Inquiry<'_>,
    subject: &Subject<'_, '_, '_>,
    after: Option<&[Value]>,
    writer: &mut Counted<W>,
) -> Result<Status, RunFault>
    requires unfailed { failures_of writer.old ≡ 0 }
    requires limited { HasLimit inquiry.request.now.limit }
    requires counted { inquiry.request.now.tests ≡ true }
    requires all { inquiry.request.now.only ≡ None }
    requires subject { IsSubjectOf inquiry.request.now inquiry.report.source.now subject.now }
    requires named { IsNamedRow (environment_in subject.now) (schema_in subject.now).comps inquiry.request.now.after (option_copied after) }
    ensures shows { Shows inquiry.entry.request.now inquiry.entry.report.file.now inquiry.entry.report.source.now (W.contents (device_of writer.old)) (W.contents (device_of writer.new)) result }
    ensures count { failures_of writer.new ≡ write_failures result }
    ensures unread { read_failures result ≡ 0 }
{
    match begin_counting(subject, after) {
        Ok(mut bindings) => {
            let limit = inquiry.request.limit;
            show_with_tests(subject.style, subject.schema, &mut bindings, limit, writer)
        }
        Err(stop) => refuse(inquiry, stop, writer),
    }
}
