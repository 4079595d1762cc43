//! A file of rows: command lines over sources, with what is written of them and the status.
//!
//! A line begins with a mark and a blank:
//!
//! | Mark | What is after it |
//! |---|---|
//! | `#` | a remark |
//! | `$` | the words of the command lines to come, parted by blanks |
//! | `+` | a further word of those, which may have blanks |
//! | `=` | the status that they end with, and they write nothing |
//! | `!` | a line that they write |
//! | `>` | a file with the lines that they write |
//! | `(` | a line before the sources to come; with nothing after it, there is none |
//! | `)` | a line after them; with nothing after it, there is none |
//! | `|` | a line of the next source |
//! | `<` | a file that the next source has the text of |
//! | `*` | a number, and words that the next source has so many times, with no end of a line |
//! | `-` | a number: so many bytes at the end of the next source are left out |
//! | `?` | the last line of the next source: the row is run |
//! | `.` | the row is run |
use crate::texts::{number_in, push_line, push_line_or_clear, push_times, replace, split_number};
use std::alloc::Global;
use std::io::ErrorKind;
use std::rt::Files;
use std::{fs, io};
use zf_command::{Asked, UsageFault, job_of};
use zf_engine::run::run;
use zf_lines::{Counted, Status};

/// What the lines so far say of the next row.
#[derive(Drop)]
pub struct Rows {
    words: String,
    further: String,
    status: String,
    written: String,
    before: String,
    behind: String,
    source: String,
    left_out: usize,
    as_written: u64,
}

impl Rows {
    pub fn new(alloc: Global) -> Rows {
        Rows {
            words: String::new(alloc),
            further: String::new(alloc),
            status: String::new(alloc),
            written: String::new(alloc),
            before: String::new(alloc),
            behind: String::new(alloc),
            source: String::new(alloc),
            left_out: 0,
            as_written: 0,
        }
    }

    /// How many rows were as written.
    pub fn as_written(&self) -> u64 {
        self.as_written
    }

    /// Reads a line. Of a row that is not as written it gives what was found.
    pub fn read<R: Files + AllocGlobal>(
        &mut self,
        rt: &R,
        line: &str,
    ) -> io::Result<Option<String>> {
        let (mark, rest) = line.split_once(' ').unwrap_or((line, ""));
        match mark {
            "" | "#" => {}
            "$" => {
                replace(&mut self.words, rest)?;
                self.further.clear();
            }
            "+" => push_line(&mut self.further, rest)?,
            "=" => {
                replace(&mut self.status, rest)?;
                self.written.clear();
            }
            "!" => push_line(&mut self.written, rest)?,
            ">" => push_file(&mut self.written, rt, rest)?,
            "(" => push_line_or_clear(&mut self.before, rest)?,
            ")" => push_line_or_clear(&mut self.behind, rest)?,
            "|" => push_line(&mut self.source, rest)?,
            "<" => push_file(&mut self.source, rt, rest)?,
            "*" => {
                let (times, words) = split_number(rest)?;
                push_times(&mut self.source, words, times)?;
            }
            "-" => self.left_out = number_in(rest)?,
            "?" => {
                push_line(&mut self.source, rest)?;
                return self.run_row();
            }
            "." => return self.run_row(),
            _ => return Err(io::Error::from(ErrorKind::InvalidData)),
        }
        Ok(None)
    }

    fn run_row(&mut self) -> io::Result<Option<String>> {
        let alloc = *self.words.allocator();
        let source = format!(in alloc; "{}{}{}", self.before, self.source, self.behind)?;
        self.source.clear();
        let kept = source.len().saturating_sub(self.left_out);
        self.left_out = 0;
        let mut written = Vec::new(alloc);
        let mut words: Vec<&str> = self.words.split_whitespace().collect(alloc)?;
        for word in self.further.lines() {
            words.push(word)?;
        }
        let bytes = &source.as_bytes()[..kept];
        let status = status_of(alloc, words.as_slice(), bytes, &mut written)?;
        if status == self.status.as_str() && written.as_slice() == self.written.as_bytes() {
            self.as_written = self.as_written.saturating_add(1);
            return Ok(None);
        }
        let Ok(written) = String::from_utf8(written) else {
            return Err(io::Error::from(ErrorKind::InvalidData));
        };
        Ok(Some(format!(in alloc; "status {status}, written:\n{written}")?))
    }
}

fn push_file<R: Files + AllocGlobal>(text: &mut String, rt: &R, file: &str) -> io::Result<()> {
    let of_file = fs::read_to_string(rt, file)?;
    text.push_str(of_file.as_str())?;
    Ok(())
}

/// What the words write over the source. The answer is the status.
fn status_of(
    alloc: Global,
    words: &[&str],
    source: &[u8],
    written: &mut Vec<u8>,
) -> io::Result<&'static str> {
    match job_of(alloc, words) {
        Ok(Asked::Work(file, job)) => {
            let mut reader = Counted::new(source);
            let mut writer = Counted::new(written);
            match run(alloc, &job, file.as_str(), &mut reader, &mut writer) {
                Ok(status) => Ok(number_of(status)),
                Err(_) => Err(io::Error::from(ErrorKind::Other)),
            }
        }
        Ok(Asked::About(text)) => {
            written.extend_from_slice(text.as_bytes())?;
            Ok("0")
        }
        Err(UsageFault::BadWords) => Ok("2"),
        Err(UsageFault::OutOfMemory) => Err(io::Error::from(ErrorKind::OutOfMemory)),
    }
}

fn number_of(status: Status) -> &'static str {
    match status {
        Status::Done => "0",
        Status::BadSpec => "1",
        Status::BadRequest => "2",
        Status::PastBounds => "3",
    }
}
