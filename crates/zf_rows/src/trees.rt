//! A file of rows: sources, with the trees that they are read as, or their faults.
//!
//! A line begins with a mark and a blank:
//!
//! | Mark | What is after it |
//! |---|---|
//! | `#` | a remark |
//! | `(` | a line of the text round the sources to come, which stand at its `..`; with nothing after it, there is none |
//! | `)` | the tree round the trees to come, which stand at its `..`; with nothing after it, there is none |
//! | `^` | the level of the forms to come, or the loosest level that may stand in the sources to come |
//! | `=` | the tree of the forms or sources to come |
//! | `@` | the tree of the sources to come, with the line of each name and term |
//! | `!` | the faults that each source to come may have, with a line before it or without one; `read` is none |
//! | `+` | a form: each source to come is run with it at its `..`, and with its tree at the `..` of the source's |
//! | `|` | a line of the next source |
//! | `*` | a number, and words that the next source has so many times, with no end of a line; without words, the source so far |
//! | `?` | the last line of the next source, with no end of a line: the row is run |
//! | `.` | the row is run |
//! | `/` | the last line of the next source: each front of it is a row that is run |
//!
//! The forms stand in their order, the loosest first. At the `..` of a source one stands in brackets where it is looser
//! than the source's level, or begins with a minus after a separator, which would be dropped.
use crate::printed::printed;
use crate::texts::{push_line, push_line_or_clear, push_times, replace, split_number};
use bumpalo::Bump;
use std::alloc::{AllocError, Global};
use std::io;
use std::io::ErrorKind;
use zf_messages::line_of;
use zf_parse::read_spec;
use zf_scan::TextFault;
use zf_tree::Spec;

/// What came of rows.
#[derive(Drop)]
pub struct Tally {
    /// How many were as written.
    pub as_written: u64,
    /// What was found of those that were not, each on a line of its own.
    pub others: String,
}

/// What is asked of a source.
#[derive(Clone, Copy)]
enum Asked {
    Tree,
    TreeWithLines,
    Fault,
}

/// What stands at the `..` of sources.
#[derive(Drop)]
struct Form {
    level: String,
    text: String,
    tree: String,
}

/// What the lines so far say of the next row.
#[derive(Drop)]
pub struct Rows {
    text_round: String,
    tree_round: String,
    level: String,
    asked: Asked,
    answer: String,
    forms: Vec<Form>,
    source: String,
}

impl Rows {
    pub fn new(alloc: Global) -> Rows {
        Rows {
            text_round: String::new(alloc),
            tree_round: String::new(alloc),
            level: String::new(alloc),
            asked: Asked::Tree,
            answer: String::new(alloc),
            forms: Vec::new(alloc),
            source: String::new(alloc),
        }
    }

    /// Reads a line, and runs the row that ends with it.
    pub fn read(&mut self, line: &str, tally: &mut Tally) -> io::Result<()> {
        let (mark, rest) = line.split_once(' ').unwrap_or((line, ""));
        match mark {
            "" | "#" => {}
            "(" => push_line_or_clear(&mut self.text_round, rest)?,
            ")" => replace(&mut self.tree_round, rest)?,
            "^" => replace(&mut self.level, rest)?,
            "=" => self.ask(Asked::Tree, rest)?,
            "@" => self.ask(Asked::TreeWithLines, rest)?,
            "!" => self.ask(Asked::Fault, rest)?,
            "+" => self.push_form(rest)?,
            "|" => push_line(&mut self.source, rest)?,
            "*" => push_often(&mut self.source, rest)?,
            "?" | "." => {
                self.source.push_str(rest)?;
                self.run_row(tally)?;
                self.source.clear();
            }
            "/" => {
                push_line(&mut self.source, rest)?;
                self.run_fronts(tally)?;
                self.source.clear();
            }
            _ => return Err(io::Error::from(ErrorKind::InvalidData)),
        }
        Ok(())
    }

    fn ask(&mut self, asked: Asked, answer: &str) -> Result<(), AllocError> {
        self.asked = asked;
        replace(&mut self.answer, answer)
    }

    fn push_form(&mut self, text: &str) -> io::Result<()> {
        let form = Form {
            level: self.level.clone()?,
            text: String::from_str(*self.level.allocator(), text)?,
            tree: self.answer.clone()?,
        };
        self.forms.push(form)?;
        Ok(())
    }

    /// Runs the source; where it has a `..`, with each form there.
    fn run_row(&self, tally: &mut Tally) -> io::Result<()> {
        let (source, answer) = (self.source.as_str(), self.answer.as_str());
        let Some((before, _behind)) = source.split_once("..") else {
            return self.run_in_round(source, answer, tally);
        };
        let alloc = *self.source.allocator();
        let is_after_separator = before.ends_with(r"\\ ") || before.ends_with("; ");
        let mut is_looser = true;
        for form in &self.forms {
            if form.level.as_str() == self.level.as_str() {
                is_looser = false;
            }
            let is_bracketed = is_looser || is_after_separator && form.text.starts_with("-");
            let (brackets, tree_brackets) = if is_bracketed {
                ("(..)", "(Bracket ..)")
            } else {
                ("..", "..")
            };
            let text = within(alloc, brackets, form.text.as_str())?;
            let tree = within(alloc, tree_brackets, form.tree.as_str())?;
            let source = within(alloc, source, text.as_str())?;
            let answer = within(alloc, answer, tree.as_str())?;
            self.run_in_round(source.as_str(), answer.as_str(), tally)?;
        }
        if is_looser {
            // No form has the level.
            return Err(io::Error::from(ErrorKind::InvalidData));
        }
        Ok(())
    }

    /// Runs the source in the text round it.
    fn run_in_round(&self, source: &str, answer: &str, tally: &mut Tally) -> io::Result<()> {
        let alloc = *self.source.allocator();
        let tree_round = match self.asked {
            Asked::Tree | Asked::TreeWithLines => self.tree_round.as_str(),
            Asked::Fault => "..",
        };
        let source = within(alloc, self.text_round.as_str(), source)?;
        let answer = within(alloc, tree_round, answer)?;
        self.run(source.as_str(), answer.as_str(), tally)
    }

    /// Runs each front of the source, from the empty one to that without its last byte.
    fn run_fronts(&self, tally: &mut Tally) -> io::Result<()> {
        for length in 0..self.source.len() {
            if let Some(front) = self.source.get(..length) {
                self.run(front, self.answer.as_str(), tally)?;
            }
        }
        Ok(())
    }

    fn run(&self, source: &str, answer: &str, tally: &mut Tally) -> io::Result<()> {
        let found = self.found(source)?;
        let found = found.as_str().trim_start();
        let is_as_written = match self.asked {
            Asked::Tree | Asked::TreeWithLines => found == answer,
            Asked::Fault => is_among(found, answer),
        };
        if is_as_written {
            tally.as_written = tally.as_written.saturating_add(1);
            return Ok(());
        }
        let front = source.get(..200).unwrap_or(source);
        Ok(write!(tally.others, "\n{front}\nis {found}")?)
    }

    /// The tree of the source, or its fault.
    fn found(&self, source: &str) -> io::Result<String> {
        let alloc = *self.source.allocator();
        let arena = Bump::new(alloc);
        match read_spec(alloc, &arena, source.as_bytes()) {
            Ok(spec) => self.tree_of(alloc, &spec, source.as_bytes()),
            Err(unread) => fault_text(alloc, source.as_bytes(), unread.fault),
        }
    }

    fn tree_of(&self, alloc: Global, spec: &Spec<'_>, source: &[u8]) -> io::Result<String> {
        match self.asked {
            Asked::Tree => printed(alloc, spec, None),
            Asked::TreeWithLines => printed(alloc, spec, Some(source)),
            Asked::Fault => Ok(String::from_str(alloc, "read")?),
        }
    }
}

fn fault_text(alloc: Global, source: &[u8], fault: TextFault) -> io::Result<String> {
    let line = line_of(source, fault.span.start);
    Ok(format!(in alloc; "{line}: {}", fault.kind)?)
}

/// Whether the fault is one of those, which are parted by commas.
fn is_among(found: &str, faults: &str) -> bool {
    let (_line, kind) = found.split_once(": ").unwrap_or(("", found));
    for fault in faults.split(", ") {
        if fault == found || fault == kind {
            return true;
        }
    }
    false
}

/// The text at the `..` of what stands round it, or after what has none.
fn within(alloc: Global, round: &str, text: &str) -> Result<String, AllocError> {
    let (before, behind) = round.split_once("..").unwrap_or((round, ""));
    let mut whole = String::from_str(alloc, before)?;
    whole.push_str(text)?;
    whole.push_str(behind)?;
    Ok(whole)
}

/// Pushes words after a number so many times; without words, the text stands so many times.
fn push_often(text: &mut String, often: &str) -> io::Result<()> {
    let (times, words) = split_number(often)?;
    if words.is_empty() {
        let so_far = text.clone()?;
        text.clear();
        return Ok(push_times(text, so_far.as_str(), times)?);
    }
    Ok(push_times(text, words, times)?)
}
