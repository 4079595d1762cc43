//! What lines of rows do to the texts that they make.
use std::alloc::AllocError;
use std::io;
use std::io::ErrorKind;

pub fn replace(text: &mut String, new: &str) -> Result<(), AllocError> {
    text.clear();
    text.push_str(new)
}

pub fn push_line(text: &mut String, line: &str) -> Result<(), AllocError> {
    text.push_str(line)?;
    text.push_str("\n")
}

pub fn push_line_or_clear(text: &mut String, line: &str) -> Result<(), AllocError> {
    if line.is_empty() {
        text.clear();
        return Ok(());
    }
    push_line(text, line)
}

pub fn push_times(text: &mut String, words: &str, times: usize) -> Result<(), AllocError> {
    for _turn in 0..times {
        text.push_str(words)?;
    }
    Ok(())
}

/// The number at the beginning, and the words after it.
pub fn split_number(text: &str) -> io::Result<(usize, &str)> {
    let (number, words) = text.split_once(' ').unwrap_or((text, ""));
    Ok((number_in(number)?, words))
}

pub fn number_in(text: &str) -> io::Result<usize> {
    match text.parse::<usize>() {
        Ok(number) => Ok(number),
        Err(_) => Err(io::Error::from(ErrorKind::InvalidData)),
    }
}
