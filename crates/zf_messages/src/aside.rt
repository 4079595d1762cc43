//! What is reported beside the offences of faults: the term that offends, a name like the one that is missing, or the paragraph
//! that would declare it; and how many faults come of one.

use crate::causes::Causes;
use crate::places::Known;
use crate::report::Report;
use bumpalo::Bump;
use std::alloc::{AllocError, Global};
use zf_data::Text;
use zf_data::arena::Lent;
use zf_parse::{command_named, read_spec};
use zf_sorts::{Hint, Offence, Sort, TypeFault};
use zf_tree::{Name, Paragraph, Span, ZBox};

/// What is remarked on an offence.
#[derive(Drop)]
pub enum Remark<'a> {
    Nothing,
    /// The term that offends, by its place.
    Term(Span),
    /// A name that is like the one that is missing.
    Like(Lent<'a>),
    /// A command that is like it.
    Command(&'static [u8]),
    /// The term that offends, and the symbol that is meant elsewhere in its paragraph.
    Meant(Span, &'static [u8]),
    /// The line of an earlier paragraph with a fault that would declare the name.
    Lost(u64),
}

/// What is reported beside an offence: a remark, and what comes of the fault.
#[derive(Drop)]
pub struct Aside<'a> {
    pub remark: Remark<'a>,
    pub causes: Causes,
}

/// A name, the line on which a paragraph with a fault would declare it, and the number of that fault.
#[derive(Drop)]
struct Lost {
    name: Text,
    line: u64,
    fault: usize,
}

/// Where a fault comes from, and what comes of it.
#[derive(Clone, Copy)]
struct Origin {
    /// The place of the fault.
    start: u32,
    /// The number of the first fault of those of which it comes; its own, if it comes of none.
    root: usize,
    /// The line on which the missing name would be declared.
    lost: Option<u64>,
    causes: Causes,
}

/// What paragraphs and boxes tell of faults: the names that are lost with those that have faults, what comes of which fault, in
/// the order of the text, and where the abbreviations are.
#[derive(Drop)]
pub struct Asides {
    lost: Vec<Lost>,
    origins: Vec<Origin>,
    abbreviations: Vec<Span>,
}

impl Asides {
    /// Where nothing is asked of them, none are looked for.
    pub fn of(
        alloc: Global,
        report: Report<'_>,
        faults: &[TypeFault<'_>],
    ) -> Result<Asides, AllocError> {
        let mut asides = Asides {
            lost: Vec::new(alloc),
            origins: Vec::new(alloc),
            abbreviations: Vec::new(alloc),
        };
        if report.details && need_paragraphs(faults) {
            asides.read(alloc, report.source, faults)?;
        }
        Ok(asides)
    }

    /// Reads the source again. It has faults of types, so it is read, and what is missing is memory.
    fn read(
        &mut self,
        alloc: Global,
        source: &[u8],
        faults: &[TypeFault<'_>],
    ) -> Result<(), AllocError> {
        let trees = Bump::new(alloc);
        let Ok(spec) = read_spec(alloc, &trees, source) else {
            return Err(AllocError);
        };
        let declared = Declarations::of(alloc, spec.boxes.as_slice())?;
        self.push_lost(alloc, source, faults, &declared)?;
        self.push_origins(source, faults)?;
        for item in spec.boxes.as_slice() {
            self.push_abbreviations(item)?;
        }
        Ok(())
    }

    /// Adds the names that the paragraphs and boxes with faults would declare.
    fn push_lost(
        &mut self,
        alloc: Global,
        source: &[u8],
        faults: &[TypeFault<'_>],
        declared: &Declarations<'_>,
    ) -> Result<(), AllocError> {
        let faulty = faulty_items(alloc, &declared.starts, faults)?;
        let mut known = Known::start();
        for name in &declared.names {
            if let Some(Some(fault)) = faulty.get(name.item) {
                let line = known.line_at(source, name.place);
                let name = Text::of(alloc, name.name)?;
                self.lost.push(Lost {
                    name,
                    line,
                    fault: *fault,
                })?;
            }
        }
        Ok(())
    }

    /// Adds where each fault comes from, and counts it with that.
    fn push_origins(&mut self, source: &[u8], faults: &[TypeFault<'_>]) -> Result<(), AllocError> {
        let mut known = Known::start();
        for fault in faults {
            let line = known.line_at(source, fault.span.start);
            self.push_origin(fault, line)?;
        }
        Ok(())
    }

    /// Adds where the next fault comes from, which is on this line.
    fn push_origin(&mut self, fault: &TypeFault<'_>, line: u64) -> Result<(), AllocError> {
        let number = self.origins.len();
        let lost = self.lost_before(fault.offence.get(), number);
        let root = match &lost {
            Some(lost) => self.root_of(lost.fault),
            None => number,
        };
        let lost = lost.map(|lost| lost.line);
        if let Some(origin) = self.origins.get_mut(root) {
            origin.causes = origin.causes.with(line);
        }
        self.origins.push(Origin {
            start: fault.span.start,
            root,
            lost,
            causes: Causes::none(),
        })?;
        Ok(())
    }

    /// Adds the places of the abbreviations of a box.
    fn push_abbreviations(&mut self, item: &ZBox<'_>) -> Result<(), AllocError> {
        let ZBox::Zed(paragraphs) = item else {
            return Ok(());
        };
        for paragraph in paragraphs.as_slice() {
            if let Paragraph::Abbrev(name, term) = paragraph {
                self.abbreviations.push(name.span.to(term.get().span()))?;
            }
        }
        Ok(())
    }

    /// What is reported beside the fault.
    pub fn aside<'a>(&self, fault: &TypeFault<'a>) -> Aside<'a> {
        match self.origin(fault) {
            Some(origin) => Aside {
                remark: self.remark(fault, origin.lost),
                causes: origin.causes,
            },
            None => Aside {
                remark: self.remark(fault, None),
                causes: Causes::none(),
            },
        }
    }

    /// Where the fault comes from, if that is known.
    fn origin(&self, fault: &TypeFault<'_>) -> Option<Origin> {
        let start = fault.span.start;
        let place = self.origins.partition_point(|origin| origin.start < start);
        match self.origins.get(place) {
            Some(origin) if origin.start == start => Some(*origin),
            _ => None,
        }
    }

    /// What is remarked on the fault, whose missing name would be declared on the line that is lost.
    fn remark<'a>(&self, fault: &TypeFault<'a>, lost: Option<u64>) -> Remark<'a> {
        if let Some(line) = lost {
            return Remark::Lost(line);
        }
        if let Some(command) = command_like(fault.offence.get()) {
            return Remark::Command(command);
        }
        self.hinted(fault)
    }

    /// The hint that the checker gives. Where a schema stands in an abbreviation, a schema is to be defined.
    fn hinted<'a>(&self, fault: &TypeFault<'a>) -> Remark<'a> {
        match &fault.hint {
            None => Remark::Nothing,
            Some(hint) => match hint.get() {
                Hint::Term(span) if self.defines_schema(fault) => Remark::Meant(*span, b"\\defs"),
                Hint::Term(span) => Remark::Term(*span),
                Hint::Like(name) => Remark::Like(name.share()),
            },
        }
    }

    /// Whether it is a schema that offends, in an abbreviation.
    fn defines_schema(&self, fault: &TypeFault<'_>) -> bool {
        if !matches!(fault.offence.get(), Offence::Misplaced(_, Sort::Schema)) {
            return false;
        }
        for part in &self.abbreviations {
            if part.start <= fault.span.start && fault.span.start < part.stop {
                return true;
            }
        }
        false
    }

    /// What would declare the name that is missing, where a fault before this number loses it.
    fn lost_before(&self, offence: &Offence<'_>, number: usize) -> Option<&Lost> {
        let Offence::NotDeclared(name) = offence else {
            return None;
        };
        for lost in &self.lost {
            if lost.fault < number && is_of(name.as_slice(), lost.name.as_slice()) {
                return Some(lost);
            }
        }
        None
    }

    /// The number of the first fault of those of which the fault with this number comes.
    fn root_of(&self, number: usize) -> usize {
        match self.origins.get(number) {
            Some(origin) => origin.root,
            None => number,
        }
    }
}

/// Whether a name is this one, or is decorated.
fn is_of(name: &[u8], base: &[u8]) -> bool {
    name == base || name.strip_suffix(b"'") == Some(base)
}

/// The command that is spelled like the name which is missing.
fn command_like(offence: &Offence<'_>) -> Option<&'static [u8]> {
    match offence {
        Offence::NotDeclared(name) => command_named(name.as_slice()),
        _ => None,
    }
}

/// Whether the paragraphs tell more of one of the faults: of a name that is missing, or a schema out of place.
fn need_paragraphs(faults: &[TypeFault<'_>]) -> bool {
    for fault in faults {
        if matches!(
            fault.offence.get(),
            Offence::NotDeclared(_) | Offence::Misplaced(_, Sort::Schema)
        ) {
            return true;
        }
    }
    false
}

/// A name that a paragraph or box declares: the number of that, the name, and the place of the name.
#[derive(Clone, Copy)]
struct Declared<'t> {
    item: usize,
    name: &'t [u8],
    place: u32,
}

/// What the paragraphs and boxes of a text declare: where each begins to, in the order of the text, and the names.
#[derive(Drop)]
struct Declarations<'t> {
    starts: Vec<u32>,
    names: Vec<Declared<'t>>,
}

/// The number of the first fault of each of the paragraphs and boxes that begin there. Both are in the order of the text.
fn faulty_items(
    alloc: Global,
    starts: &[u32],
    faults: &[TypeFault<'_>],
) -> Result<Vec<Option<usize>>, AllocError> {
    let mut faulty = Vec::with_capacity(alloc, starts.len())?;
    let mut passed: usize = 0;
    for place in 0..starts.len() {
        let end = starts.get(place + 1).copied().unwrap_or(u32::MAX);
        let before = passed;
        passed = faults_before(faults, passed, end);
        let first = if before < passed { Some(before) } else { None };
        faulty.push(first)?;
    }
    Ok(faulty)
}

/// How many faults stand before a place, where so many do.
fn faults_before(faults: &[TypeFault<'_>], passed: usize, end: u32) -> usize {
    for place in passed..faults.len() {
        if end <= faults[place].span.start {
            return place;
        }
    }
    faults.len()
}

impl<'t> Declarations<'t> {
    fn of(alloc: Global, boxes: &'t [ZBox<'_>]) -> Result<Declarations<'t>, AllocError> {
        let mut declared = Declarations {
            starts: Vec::new(alloc),
            names: Vec::new(alloc),
        };
        for item in boxes {
            declared.push_box(item)?;
        }
        Ok(declared)
    }

    /// Adds a name of the paragraph or box that was begun last.
    fn push(&mut self, name: &'t Name<'_>) -> Result<(), AllocError> {
        self.names.push(Declared {
            item: self.starts.len().saturating_sub(1),
            name: name.spelled.as_slice(),
            place: name.span.start,
        })?;
        Ok(())
    }

    /// Begins a paragraph or box with its first name.
    fn begin(&mut self, name: &'t Name<'_>) -> Result<(), AllocError> {
        self.starts.push(name.span.start)?;
        self.push(name)
    }

    fn push_all(&mut self, names: &'t [Name<'_>]) -> Result<(), AllocError> {
        for name in names {
            self.push(name)?;
        }
        Ok(())
    }

    fn push_box(&mut self, item: &'t ZBox<'_>) -> Result<(), AllocError> {
        match item {
            ZBox::Zed(paragraphs) => self.push_paragraphs(paragraphs.as_slice()),
            ZBox::SchemaBox(name, _, _) => self.begin(name),
        }
    }

    fn push_paragraphs(&mut self, paragraphs: &'t [Paragraph<'_>]) -> Result<(), AllocError> {
        for paragraph in paragraphs {
            self.push_paragraph(paragraph)?;
        }
        Ok(())
    }

    fn push_paragraph(&mut self, paragraph: &'t Paragraph<'_>) -> Result<(), AllocError> {
        match paragraph {
            Paragraph::Given(names) => self.push_given(names.as_slice()),
            Paragraph::Free(name, names) => {
                self.begin(name)?;
                self.push_all(names.as_slice())
            }
            Paragraph::Abbrev(name, _) => self.begin(name),
            Paragraph::Defs(name, _) => self.begin(name),
        }
    }

    fn push_given(&mut self, names: &'t [Name<'_>]) -> Result<(), AllocError> {
        match names {
            [] => Ok(()),
            [first, rest @ ..] => {
                self.begin(first)?;
                self.push_all(rest)
            }
        }
    }
}
