//! The first binding of a schema, or why it has none.
ghost use Rattle.std.specs.Prelude.{◌≡◌, ◌++◌, IfOk, IfErr, MatchOption, OnOk};
ghost use Rattle.zf_answers.specs.Prelude.{IsBare, IsNoneOut, environment_of, schema_of};
ghost use Rattle.zf_answers.specs.{AnswersRequest, CanBeSearched, environment_in, HasNone, IfAnswered, IsAsked, IsBegunOf, line_in, out_line_in, satisfied_line, schema_in, TellsFirst, TellsNone, TellsOf, TellsOut, WhyAnswer};

use crate::asked::find_schema;
use crate::begin::begin;
use crate::check::load;
use crate::endings::satisfied_line;
use crate::held::values_held;
use crate::inquiry::Inquiry;
use crate::reasons::cause_lines;
use crate::stop::Stop;
use crate::subject::Subject;
use bumpalo::Bump;
use std::alloc::{AllocError, Global};
use zf_command::Request;
use zf_enum::Search;
use zf_lines::{Status, Style, append_out_line, append_row_line};
use zf_meaning::{Env, Row};
use zf_messages::Report;
use zf_print::spellings_of;
use zf_term::Flat;
use zf_walk::Step;
use zf_why::{Question, why};

/// The answer of `why` for a source. Its refusals are reported.
pub fn why_source(
    alloc: Global,
    request: &Request,
    file: &[u8],
    source: &[u8],
) -> Result<(Vec<u8>, Status), Stop>
    requires { IsBare request.now }
    ensures answer { IfOk result (λ p. WhyAnswer request.now file.now source.now p.0.items p.1) }
    ensures stop { IfErr result (AnswersRequest request.now source.now) }
{
    let trees = Bump::new(alloc);
    let arena = Bump::new(alloc);
    let report = Report {
        source,
        file,
        details: request.details,
    };
    let inquiry = Inquiry {
        alloc,
        request,
        report,
    };
    let globals = load(alloc, &trees, &arena, report)?;
    let asked = find_schema(alloc, &globals, request, report)?;
    why_schema(inquiry, &arena, asked.schema, &asked.env)
}

/// The answer for a finite schema in an environment.
fn why_schema<'a>(
    inquiry: Inquiry<'_>,
    arena: &'a Bump,
    schema: &Flat<'a>,
    env: &Env<'_, 'a>,
) -> Result<(Vec<u8>, Status), Stop>
    requires plain { IsBare inquiry.request.now }
    requires details { inquiry.report.details ≡ inquiry.request.now.details }
    requires asked { IsAsked inquiry.request.now inquiry.report.source.now (environment_of env.now).globals (schema_of schema.now) (environment_of env.now) }
    ensures answer { IfOk result (λ p. WhyAnswer inquiry.entry.request.now inquiry.entry.report.file.now inquiry.entry.report.source.now p.0.items p.1) }
    ensures stop { IfErr result (AnswersRequest inquiry.entry.request.now inquiry.entry.report.source.now) }
{
    let request = inquiry.request;
    let elements = spellings_of(inquiry.alloc, env.globals())?;
    let style = Style {
        alloc: inquiry.alloc,
        format: request.format,
        elements: &elements,
    };
    let held = values_held(inquiry, schema, env, &elements)?;
    let subject = Subject {
        arena,
        schema,
        env,
        style: &style,
        held: &held,
    };
    why_held(&subject, inquiry.report)
}

/// The answer for a schema that is finite.
fn why_held(subject: &Subject<'_, '_, '_>, report: Report<'_>) -> Result<(Vec<u8>, Status), Stop>
    requires { CanBeSearched subject.now }
    ensures none_out { OnOk result (IsNoneOut (environment_in subject.now) (schema_in subject.now).comps) }
    ensures told { IfOk result (λ p. TellsOf subject.now report.entry.details report.entry.file.now report.entry.source.now p.0.items p.1) }
    ensures stop { IfErr result (λ s. IfAnswered s (TellsOut (environment_in subject.now) (schema_in subject.now).comps)) }
{
    match first_in(subject)? {
        Some(answer) => Ok(answer),
        None => Ok((none_text(subject, report)?, Status::Done)),
    }
}

/// The answer where there is an event.
fn first_in(subject: &Subject<'_, '_, '_>) -> Result<Option<(Vec<u8>, Status)>, Stop>
    requires { CanBeSearched subject.now }
    ensures none_out { OnOk result (IsNoneOut (environment_in subject.now) (schema_in subject.now).comps) }
    ensures first { IfOk result (λ first. MatchOption first (HasNone subject.now) (λ p. TellsFirst subject.now p.0.items p.1)) }
    ensures stop { IfErr result (λ s. IfAnswered s (TellsOut (environment_in subject.now) (schema_in subject.now).comps)) }
{
    let mut search = begin(subject, None)?;
    Ok(first_event(subject, &mut search)?)
}

/// The answer where the search finds an event.
fn first_event<S: Search>(
    subject: &Subject<'_, '_, '_>,
    search: &mut S,
) -> Result<Option<(Vec<u8>, Status)>, AllocError>
    requires searched { CanBeSearched subject.now }
    requires begins { IsBegunOf subject.now (S.goal search.old) (S.stage search.old) }
    ensures { IfOk result (λ first. MatchOption first (HasNone subject.now) (λ p. TellsFirst subject.now p.0.items p.1)) }
{
    match search.advance()? {
        Step::Holds => Ok(Some((satisfied_text(subject, search)?, Status::Done))),
        Step::Breaks => Ok(Some((out_text(subject, search)?, Status::PastBounds))),
        Step::End => Ok(None),
    }
}

/// The line of a row, and that it satisfies the schema.
fn satisfied_text<R: Row>(subject: &Subject<'_, '_, '_>, row: &R) -> Result<Vec<u8>, AllocError>
    ensures { IfOk result (λ v. v.items ≡ line_in subject.now (R.values row.now) ++ satisfied_line subject.now.style.now.format) }
{
    let style = subject.style;
    let mut text = Vec::new(style.alloc);
    append_row_line(&mut text, style.format, subject.schema, style.elements, row)?;
    text.extend_from_slice(satisfied_line(style.format))?;
    Ok(text)
}

/// That a row is out of bounds.
fn out_text<R: Row>(subject: &Subject<'_, '_, '_>, row: &R) -> Result<Vec<u8>, AllocError>
    ensures { IfOk result (λ v. v.items ≡ out_line_in subject.now (R.values row.now)) }
{
    let style = subject.style;
    let mut text = Vec::new(style.alloc);
    append_out_line(&mut text, style.format, subject.schema, style.elements, row)?;
    Ok(text)
}

/// The text where there is no event.
fn none_text(subject: &Subject<'_, '_, '_>, report: Report<'_>) -> Result<Vec<u8>, AllocError>
    requires searched { CanBeSearched subject.now }
    requires none_out { IsNoneOut (environment_in subject.now) (schema_in subject.now).comps }
    requires none { HasNone subject.now }
    ensures { IfOk result (λ v. TellsNone subject.now report.entry.details report.entry.file.now report.entry.source.now v.items) }
{
    let style = subject.style;
    let question = Question {
        held: subject.held,
        details: report.details,
    };
    let cause = why(
        style.alloc,
        subject.arena,
        subject.schema,
        subject.env,
        &question,
    )?;
    cause_lines(subject, report, &cause)
}
