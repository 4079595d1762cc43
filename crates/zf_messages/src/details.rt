//! What a fault is about: the details of its message.
ghost use Rattle.std.specs.Prelude.{◌≡◌, ◌<◌, ◌++◌, codes, decimal, IfOk, OnOk, length, map, slice_get, take};
ghost use Rattle.zf_messages.specs.Details as spec;
ghost use Rattle.zf_messages.specs.{aside_of, cited_of, detail, detail_if_any, IsKnown, name_of, other_of, remark_of};
ghost use Rattle.zf_term.specs.{globals_of, type_of, type_text};
ghost use Rattle.zf_sorts.specs.{fault_of, offence_of, sort_of};

use crate::aside::{Aside, Remark};
use crate::causes::Causes;
use crate::message::{At, Detail, Message, add_detail};
use crate::places::{Known, line_of, quoted};
use crate::report::Report;
use crate::texts::{text_fault_text, type_fault_text};
use itoa::Buffer;
use std::alloc::{AllocError, Global};
use zf_data::Items;
use zf_extent::Offender;
use zf_finite::NotFinite;
use zf_parse::{About, LeftOut};
use zf_scan::scan::SOURCE_MAX;
use zf_scan::{TextFault, TextFaultKind};
use zf_sorts::{Offence, Sort, TypeFault};
use zf_term::type_text::append_type;
use zf_term::{Clash, Globals, Limit, ZType};
use zf_tree::{Constant, Span};

/// Adds a detail whose text may be missing.
pub fn add_if_any(
    details: &mut Items<Detail>,
    alloc: Global,
    word: &[u8],
    text: &[u8],
) -> Result<(), AllocError>
    ensures { OnOk result (details.new ≡ details.old ++ detail_if_any word.now text.now) }
{
    match text {
        [] => Ok(()),
        [_, ..] => add_detail(details, alloc, word, text),
    }
}

/// Adds a type.
fn add_type(
    details: &mut Items<Detail>,
    alloc: Global,
    word: &[u8],
    ztype: &ZType<'_>,
) -> Result<(), AllocError>
    ensures { OnOk result (details.new ≡ details.old ++ detail word.now (type_text (type_of ztype.now))) }
{
    let mut text = Vec::new(alloc);
    append_type(&mut text, ztype)?;
    add_detail(details, alloc, word, &text)
}

// ---- faults of types

/// What a term is.
fn add_sort(
    details: &mut Items<Detail>,
    alloc: Global,
    word: &[u8],
    sort: &Sort<'_>,
) -> Result<(), AllocError>
    ensures { OnOk result (details.new ≡ details.old ++ detail word.now (spec.sort_text (sort_of sort.now))) }
{
    match sort {
        Sort::Typed(ztype) => add_type(details, alloc, word, ztype),
        Sort::Predicate => add_detail(details, alloc, word, b"a predicate"),
        Sort::Schema => add_detail(details, alloc, word, b"a schema"),
    }
}

/// `limit: NUMBER` and what is counted.
fn add_number(
    details: &mut Items<Detail>,
    alloc: Global,
    number: u64,
    counted: &[u8],
) -> Result<(), AllocError>
    ensures { OnOk result (details.new ≡ details.old ++ detail (codes "limit") (decimal number ++ counted.now)) }
{
    let mut digits = Buffer::new();
    let mut text = Vec::from_slice(alloc, digits.format(number).as_bytes())?;
    text.extend_from_slice(counted)?;
    add_detail(details, alloc, b"limit", &text)
}

/// A limit of the schema calculus.
fn add_limit(details: &mut Items<Detail>, alloc: Global, limit: Limit) -> Result<(), AllocError>
    ensures { OnOk result (details.new ≡ details.old ++ detail (codes "limit") (spec.limit_text limit)) }
{
    match limit {
        Limit::TypeNodes => add_number(details, alloc, 256, b" nodes in a type"),
        Limit::Components => add_number(details, alloc, 64, b" components in a schema"),
        Limit::Sets => add_number(details, alloc, 4096, b" declared sets in a schema"),
        Limit::Conjuncts => add_number(details, alloc, 4096, b" conjuncts in a schema"),
        Limit::Nodes => add_number(details, alloc, 65536, b" nodes in the terms of a schema"),
        Limit::Height => add_number(details, alloc, 256, b" levels in a conjunct"),
    }
}

/// Two types.
fn add_types(
    details: &mut Items<Detail>,
    alloc: Global,
    left: &ZType<'_>,
    right: &ZType<'_>,
) -> Result<(), AllocError>
    ensures { OnOk result (details.new ≡ details.old ++ (detail (codes "left") (type_text (type_of left.now)) ++ detail (codes "right") (type_text (type_of right.now)))) }
{
    add_type(details, alloc, b"left", left)?;
    add_type(details, alloc, b"right", right)
}

/// A component that has two types.
fn add_clash(
    details: &mut Items<Detail>,
    alloc: Global,
    clash: &Clash<'_>,
) -> Result<(), AllocError>
    ensures { OnOk result (details.new ≡ details.old ++ (detail (codes "component") clash.now.name ++ (detail (codes "left") (type_text (type_of clash.now.left)) ++ detail (codes "right") (type_text (type_of clash.now.right))))) }
{
    add_detail(details, alloc, b"component", clash.name.as_slice())?;
    add_types(details, alloc, &clash.left, &clash.right)
}

/// What is wrong with types.
fn add_offence(
    details: &mut Items<Detail>,
    alloc: Global,
    offence: &Offence<'_>,
) -> Result<(), AllocError>
    ensures { OnOk result (details.new ≡ details.old ++ spec.offence_details (offence_of offence.now)) }
{
    match offence {
        Offence::NotDeclared(name) => add_detail(details, alloc, b"name", name.as_slice()),
        Offence::AlreadyDefined(name) => add_detail(details, alloc, b"name", name.as_slice()),
        Offence::NotASchema(name) => add_detail(details, alloc, b"name", name.as_slice()),
        Offence::LocalTwice(name) => add_detail(details, alloc, b"name", name.as_slice()),
        Offence::Mismatch(left, right) => {
            add_sort(details, alloc, b"left", left)?;
            add_sort(details, alloc, b"right", right)
        }
        Offence::Unfit(needed, found) => {
            add_type(details, alloc, b"needed", needed)?;
            add_type(details, alloc, b"found", found)
        }
        Offence::NoMembers => Ok(()),
        Offence::Misplaced(_, found) => add_sort(details, alloc, b"found", found),
        Offence::Clash(clash) => add_clash(details, alloc, clash),
        Offence::TooLarge(limit) => add_limit(details, alloc, *limit),
    }
}

/// `lines: FIRST to LAST`, of a part that goes over more than one.
pub fn add_line_range(
    details: &mut Items<Detail>,
    alloc: Global,
    first: u64,
    last: u64,
) -> Result<(), AllocError>
    ensures { OnOk result (details.new ≡ details.old ++ spec.line_range first last) }
{
    if first == last {
        return Ok(());
    }
    let mut number = Buffer::new();
    let mut text = Vec::from_slice(alloc, number.format(first).as_bytes())?;
    text.extend_from_slice(b" to ")?;
    text.extend_from_slice(number.format(last).as_bytes())?;
    add_detail(details, alloc, b"lines", &text)
}

/// How many bytes of a term are quoted at most.
const WIDTH: usize = 60;

/// A text that is cut between words, if it is too long.
fn shortened(mut text: Vec<u8>) -> Result<Vec<u8>, AllocError>
    ensures { IfOk result (λ v. v.items ≡ spec.shortened text.items) }
{
    if text.len() <= WIDTH {
        return Ok(text);
    }
    let len = word_end(&text);
    text.truncate(len);
    text.extend_from_slice(b" ..")?;
    Ok(text)
}

/// Where the last word ends that is quoted of a longer text.
#[tactic(auto, using(crate::proofs::Words::no_word, crate::proofs::Words::last_word))]
fn word_end(text: &[u8]) -> usize
    requires { WIDTH < length text.now }
    ensures { take result text.now ≡ spec.front_of_words WIDTH text.now }
{
    let mut len = WIDTH;
    while len > 0 {
        if text[len] == b' ' {
            return len;
        }
        len -= 1;
    }
    WIDTH
}

/// The lines of what stands there, if it goes over more than one.
fn add_lines(
    details: &mut Items<Detail>,
    alloc: Global,
    source: &[u8],
    span: Span,
) -> Result<(), AllocError>
    ensures { OnOk result (details.new ≡ details.old ++ spec.lines_details source.now span) }
{
    let first = line_of(source, span.start);
    let last = line_of(source, span.stop);
    add_line_range(details, alloc, first, last)
}

/// The term that stands there, and its lines, which are counted from what is known.
fn add_term(
    details: &mut Items<Detail>,
    alloc: Global,
    source: &[u8],
    known: &mut Known,
    span: Span,
) -> Result<(), AllocError>
    requires { IsKnown source.now known.old }
    ensures term { OnOk result (details.new ≡ details.old ++ spec.term_details source.now span) }
    ensures known { IsKnown source.now known.new }
{
    let first = known.line_at(source, span.start);
    let last = known.line_at(source, span.stop);
    let text = shortened(quoted(alloc, source, span)?)?;
    add_detail(details, alloc, b"term", &text)?;
    add_line_range(details, alloc, first, last)
}

/// A paragraph with a fault that would declare the name.
fn add_lost(details: &mut Items<Detail>, alloc: Global, line: u64) -> Result<(), AllocError>
    ensures { OnOk result (details.new ≡ details.old ++ detail (codes "declared at") (decimal line ++ codes ", in a paragraph with a fault")) }
{
    let mut number = Buffer::new();
    let mut text = Vec::from_slice(alloc, number.format(line).as_bytes())?;
    text.extend_from_slice(b", in a paragraph with a fault")?;
    add_detail(details, alloc, b"declared at", &text)
}

/// What comes before what is wrong with types.
fn add_before(
    details: &mut Items<Detail>,
    alloc: Global,
    source: &[u8],
    known: &mut Known,
    remark: &Remark<'_>,
) -> Result<(), AllocError>
    requires { IsKnown source.now known.old }
    ensures before { OnOk result (details.new ≡ details.old ++ spec.before source.now (remark_of remark.now)) }
    ensures known { IsKnown source.now known.new }
{
    match remark {
        Remark::Term(span) => add_term(details, alloc, source, known, *span),
        Remark::Meant(span, _) => add_term(details, alloc, source, known, *span),
        Remark::Nothing => Ok(()),
        Remark::Like(_) => Ok(()),
        Remark::Command(_) => Ok(()),
        Remark::Lost(_) => Ok(()),
    }
}

/// What comes after it.
fn add_after(
    details: &mut Items<Detail>,
    alloc: Global,
    remark: &Remark<'_>,
) -> Result<(), AllocError>
    ensures { OnOk result (details.new ≡ details.old ++ spec.after (remark_of remark.now)) }
{
    match remark {
        Remark::Nothing => Ok(()),
        Remark::Term(_) => Ok(()),
        Remark::Like(name) => add_detail(details, alloc, b"like", name.as_slice()),
        Remark::Command(symbol) => add_detail(details, alloc, b"like", symbol),
        Remark::Meant(_, symbol) => add_detail(details, alloc, b"like", symbol),
        Remark::Lost(line) => add_lost(details, alloc, *line),
    }
}

/// `1 fault`, or how many there are.
fn append_count(text: &mut Vec<u8>, count: u64) -> Result<(), AllocError>
    ensures { OnOk result (text.new.items ≡ text.old.items ++ spec.counted_faults count) }
{
    if count == 1 {
        return text.extend_from_slice(b"1 fault");
    }
    let mut number = Buffer::new();
    text.extend_from_slice(number.format(count).as_bytes())?;
    text.extend_from_slice(b" faults")
}

/// `, line LINE` or `, lines FIRST to LAST`
fn append_lines(text: &mut Vec<u8>, first: u64, last: u64) -> Result<(), AllocError>
    ensures { OnOk result (text.new.items ≡ text.old.items ++ spec.lines_text first last) }
{
    let mut number = Buffer::new();
    if first == last {
        text.extend_from_slice(b", line ")?;
        return text.extend_from_slice(number.format(first).as_bytes());
    }
    text.extend_from_slice(b", lines ")?;
    text.extend_from_slice(number.format(first).as_bytes())?;
    text.extend_from_slice(b" to ")?;
    text.extend_from_slice(number.format(last).as_bytes())
}

/// How many faults come of this one, if any do, and where they are.
fn add_causes(details: &mut Items<Detail>, alloc: Global, causes: Causes) -> Result<(), AllocError>
    ensures { OnOk result (details.new ≡ details.old ++ spec.causes_details causes) }
{
    if causes.count == 0 {
        return Ok(());
    }
    let mut text = Vec::new(alloc);
    append_count(&mut text, causes.count)?;
    append_lines(&mut text, causes.first, causes.last)?;
    add_detail(details, alloc, b"causes", &text)
}

/// The message of a fault of types, with what is reported beside it. Its line is counted from what is known.
pub fn type_fault_message(
    alloc: Global,
    report: Report<'_>,
    known: &mut Known,
    fault: &TypeFault<'_>,
    aside: &Aside<'_>,
) -> Result<Message, AllocError>
    requires { IsKnown report.source.now known.old }
    ensures message { IfOk result (λ m. m ≡ spec.type_fault_message report.entry.details report.entry.source.now (fault_of fault.now) (aside_of aside.now)) }
    ensures known { IsKnown report.entry.source.now known.new }
{
    let line = known.line_at(report.source, fault.span.start);
    let text = type_fault_text(fault.kind());
    let mut message = Message::of(alloc, At::Line(line), text)?;
    if report.details {
        let remark = &aside.remark;
        add_before(&mut message.details, alloc, report.source, known, remark)?;
        add_offence(&mut message.details, alloc, fault.offence.get())?;
        add_after(&mut message.details, alloc, remark)?;
        add_causes(&mut message.details, alloc, aside.causes)?;
    }
    Ok(message)
}

// ---- faults of the text

/// A symbol as it is reported: the command that ends a box is not.
fn symbol_text(symbol: &[u8]) -> &[u8]
    ensures { result.now ≡ spec.symbol_text symbol.now }
{
    if symbol.starts_with(b"\\end{") {
        return b"end of the box";
    }
    symbol
}

/// A command as it is reported: without the byte after its backslash, where that is not printed.
fn command_text(command: &[u8]) -> &[u8]
    ensures { result.now ≡ spec.command_text command.now }
{
    match command {
        [] => command,
        [_] => command,
        [_, byte] => {
            if byte.is_ascii_graphic() {
                command
            } else {
                &command[..1]
            }
        }
        [_, _, _, ..] => command,
    }
}

/// A byte, or its number.
fn add_byte(details: &mut Items<Detail>, alloc: Global, byte: u8) -> Result<(), AllocError>
    ensures { OnOk result (details.new ≡ details.old ++ detail (codes "byte") (spec.byte_text byte)) }
{
    if byte.is_ascii_graphic() {
        return add_detail(details, alloc, b"byte", &[byte]);
    }
    let mut number = Buffer::new();
    let digits = number.format(u64::from(byte));
    add_detail(details, alloc, b"byte", digits.as_bytes())
}

/// A byte or character that begins no piece, or the command after which something is missing.
fn add_bad(details: &mut Items<Detail>, alloc: Global, symbol: &[u8]) -> Result<(), AllocError>
    ensures { OnOk result (details.new ≡ details.old ++ spec.byte_details symbol.now) }
{
    match symbol {
        [] => Ok(()),
        [byte] => add_byte(details, alloc, *byte),
        [first, _, ..] => add_detail(details, alloc, bad_word(*first), symbol),
    }
}

/// What more than one byte is, by the first: a character outside ASCII, or a command.
fn bad_word(first: u8) -> &'static [u8]
    ensures { result.now ≡ spec.bad_word first }
{
    if first < 128 { b"symbol" } else { b"character" }
}

/// `WORD: SYMBOL, line LINE`, of the other symbol.
fn add_other(
    details: &mut Items<Detail>,
    alloc: Global,
    source: &[u8],
    word: &[u8],
    about: &About<'_>,
) -> Result<(), AllocError>
    ensures { OnOk result (details.new ≡ details.old ++ detail word.now (spec.located source.now about.now.other.now about.now.span)) }
{
    let mut number = Buffer::new();
    let line = line_of(source, about.span.start);
    let mut text = Vec::from_slice(alloc, about.other)?;
    text.extend_from_slice(b", line ")?;
    text.extend_from_slice(number.format(line).as_bytes())?;
    add_detail(details, alloc, word, &text)
}

/// At what a box shows that it is not closed.
fn add_closing(
    details: &mut Items<Detail>,
    alloc: Global,
    source: &[u8],
    about: &About<'_>,
) -> Result<(), AllocError>
    ensures { OnOk result (details.new ≡ details.old ++ spec.closing_details source.now about.now.other.now about.now.span) }
{
    match about.other {
        [] => add_detail(details, alloc, b"closed by", b"the end of the text"),
        [_, ..] => add_other(details, alloc, source, b"closed by", about),
    }
}

/// A bracket that is not closed, where there is one.
fn add_open(
    details: &mut Items<Detail>,
    alloc: Global,
    source: &[u8],
    about: &About<'_>,
) -> Result<(), AllocError>
    ensures { OnOk result (details.new ≡ details.old ++ spec.open_details source.now about.now.other.now about.now.span) }
{
    match about.other {
        [] => Ok(()),
        [_, ..] => add_other(details, alloc, source, b"open", about),
    }
}

/// A symbol that is unexpected.
fn add_unexpected(
    details: &mut Items<Detail>,
    alloc: Global,
    source: &[u8],
    about: &About<'_>,
) -> Result<(), AllocError>
    ensures { OnOk result (details.new ≡ details.old ++ spec.unexpected_details source.now (cited_of about.now)) }
{
    add_if_any(details, alloc, b"symbol", symbol_text(about.symbol))?;
    add_open(details, alloc, source, about)?;
    add_if_any(details, alloc, b"like", about.like)?;
    add_lines(details, alloc, source, about.across)
}

/// Where one reads what to write, and what else the text has that is left out.
fn add_others(
    details: &mut Items<Detail>,
    alloc: Global,
    source: &[u8],
    about: &About<'_>,
) -> Result<(), AllocError>
    ensures { OnOk result (details.new ≡ details.old ++ spec.others_details source.now (cited_of about.now)) }
{
    let others = others_text(alloc, source, about.others)?;
    add_if_any(details, alloc, b"see", about.entry)?;
    add_if_any(details, alloc, b"also", &others)
}

/// `SYMBOL, line LINE; SYMBOL, line LINE`
#[tactic(auto, using(crate::proofs::Told::one_other_more))]
fn others_text(alloc: Global, source: &[u8], others: &[LeftOut<'_>]) -> Result<Vec<u8>, AllocError>
    ensures { IfOk result (λ v. v.items ≡ spec.others_text source.now (map other_of others.now)) }
{
    let mut text = Vec::new(alloc);
    for place in 0..others.len() {
        let line = line_of(source, others[place].start);
        append_other(&mut text, others[place].symbol, line)?;
    }
    Ok(text)
}

/// One more of them.
fn append_other(text: &mut Vec<u8>, symbol: &[u8], line: u64) -> Result<(), AllocError>
    ensures { OnOk result (text.new.items ≡ spec.and_other text.old.items (symbol.now ++ codes ", line " ++ decimal line)) }
{
    let mut number = Buffer::new();
    if !text.is_empty() {
        text.extend_from_slice(b"; ")?;
    }
    text.extend_from_slice(symbol)?;
    text.extend_from_slice(b", line ")?;
    text.extend_from_slice(number.format(line).as_bytes())
}

/// What a fault of the text is about.
fn add_text_details(
    details: &mut Items<Detail>,
    alloc: Global,
    source: &[u8],
    kind: TextFaultKind,
    about: &About<'_>,
) -> Result<(), AllocError>
    ensures { OnOk result (details.new ≡ details.old ++ spec.text_details source.now kind (cited_of about.now)) }
{
    let symbol = about.symbol;
    match kind {
        TextFaultKind::BadByte => add_bad(details, alloc, symbol),
        TextFaultKind::UnknownCommand => {
            add_if_any(details, alloc, b"command", command_text(symbol))?;
            add_if_any(details, alloc, b"like", about.like)?;
            add_others(details, alloc, source, about)
        }
        TextFaultKind::NotInProfile => {
            add_if_any(details, alloc, b"symbol", symbol)?;
            add_others(details, alloc, source, about)
        }
        TextFaultKind::UnclosedBox => add_closing(details, alloc, source, about),
        TextFaultKind::Unexpected => add_unexpected(details, alloc, source, about),
        TextFaultKind::NumberTooLarge => add_number(details, alloc, i64::MAX as u64, b""),
        TextFaultKind::TooDeep => add_number(details, alloc, 128, b" levels"),
        TextFaultKind::TooLong => add_number(details, alloc, SOURCE_MAX as u64, b" bytes"),
        TextFaultKind::OutOfMemory => Ok(()),
    }
}

/// Where a fault of the text stands. A source that is too long has no line.
fn place_of(source: &[u8], fault: TextFault) -> At
    ensures { result ≡ spec.place_of_fault source.now fault }
{
    match fault.kind {
        TextFaultKind::TooLong => At::File,
        _ => At::Line(line_of(source, fault.span.start)),
    }
}

/// The message of a fault of the text, which is about these symbols.
pub fn text_fault_message(
    alloc: Global,
    report: Report<'_>,
    fault: TextFault,
    about: &About<'_>,
) -> Result<Message, AllocError>
    ensures { IfOk result (λ m. m ≡ spec.text_fault_message report.entry.details report.entry.source.now fault (cited_of about.now)) }
{
    let at = place_of(report.source, fault);
    let mut message = Message::of(alloc, at, text_fault_text(fault.kind))?;
    if report.details {
        let details = &mut message.details;
        add_text_details(details, alloc, report.source, fault.kind, about)?;
    }
    Ok(message)
}

// ---- schemas that are not finite

/// What is reported beside what makes a schema infinite.
#[derive(Clone, Copy)]
pub struct Beside<'b> {
    /// The name of a schema that does not declare the component, or nothing.
    pub side: &'b [u8],
    /// Whether it is finite with a greatest number.
    pub mended: bool,
}

/// How a constant is spelled.
fn constant_text(constant: Constant) -> &'static [u8]
    ensures { result.now ≡ spec.constant_text constant }
{
    match constant {
        Constant::True => b"true",
        Constant::False => b"false",
        Constant::Integers => b"\\num",
        Constant::Naturals => b"\\nat",
        Constant::Positives => b"\\nat_1",
    }
}

/// The name of the global at this place.
pub fn name_at<'g>(globals: &'g Globals<'_>, place: usize) -> &'g [u8]
    ensures { result.now ≡ name_of (slice_get (globals_of globals.now) place) }
{
    match globals.in_order(place) {
        Some((name, _)) => name,
        None => b"",
    }
}

/// The name or symbol that offends.
fn offender_text<'g>(globals: &'g Globals<'_>, offender: Offender) -> &'g [u8]
    ensures { result.now ≡ spec.offender_text (globals_of globals.now) offender }
{
    match offender {
        Offender::Name(_, place) => name_at(globals, place),
        Offender::Symbol(_, constant) => constant_text(constant),
    }
}

/// A component that nothing bounds, and a schema that does not declare it, if there is one.
fn add_unbounded(
    details: &mut Items<Detail>,
    alloc: Global,
    name: &[u8],
    side: &[u8],
) -> Result<(), AllocError>
    ensures { OnOk result (details.new ≡ details.old ++ (detail (codes "component") name.now ++ detail_if_any (codes "not declared in") side.now)) }
{
    add_detail(details, alloc, b"component", name)?;
    add_if_any(details, alloc, b"not declared in", side)
}

/// What makes a schema infinite.
fn add_cause(
    details: &mut Items<Detail>,
    alloc: Global,
    globals: &Globals<'_>,
    cause: &NotFinite<'_>,
    side: &[u8],
) -> Result<(), AllocError>
    ensures { OnOk result (details.new ≡ details.old ++ spec.cause_details (globals_of globals.now) cause.now side.now) }
{
    match cause {
        NotFinite::Unbounded(_, name) => add_unbounded(details, alloc, name.as_slice(), side),
        NotFinite::Offends(offender) => {
            add_detail(details, alloc, b"name", offender_text(globals, *offender))
        }
    }
}

/// What else makes it finite, if that does.
fn add_mending(details: &mut Items<Detail>, alloc: Global, mended: bool) -> Result<(), AllocError>
    ensures { OnOk result (details.new ≡ details.old ++ spec.mending_details mended) }
{
    if mended {
        add_detail(details, alloc, b"or", b"--numbers N")?;
    }
    Ok(())
}

/// The message for a schema that is not finite.
pub fn not_finite_message(
    alloc: Global,
    report: Report<'_>,
    globals: &Globals<'_>,
    cause: &NotFinite<'_>,
    beside: Beside<'_>,
) -> Result<Message, AllocError>
    ensures { IfOk result (λ m. m ≡ spec.not_finite_message report.entry.details report.entry.source.now (globals_of globals.now) cause.now beside.entry.side.now beside.entry.mended) }
{
    let line = line_of(report.source, cause.span().start);
    let mut message = Message::of(alloc, At::Line(line), b"not finite")?;
    if report.details {
        let details = &mut message.details;
        add_cause(details, alloc, globals, cause, beside.side)?;
        add_mending(details, alloc, beside.mended)?;
    }
    Ok(message)
}
