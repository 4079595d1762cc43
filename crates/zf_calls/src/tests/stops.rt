//! Runs over devices that fail, or that give or take a few bytes at a time.
use crate::devices::{Endless, Failing, Limited};
use crate::tests::runs::ended;
use crate::tests::sources::{BOOK, BOOK_ANSWER, ONE, WIDE};
use std::io::ErrorKind;
use std::test::Fail;
use zf_lines::{RunFault, Status};

const WORDS: &[&str] = &["show", "s.tex", "BirthdayBook", "NAME=1", "DATE=2"];

/// More bytes than a line has, and than the answer.
const MANY: usize = 1000;

/// A writer with room for the answer alone fails at the flush, and one with more room does not fail.
#[test]
fn writer_fails_at_each_byte(rt: HostRuntime) -> Result<(), Fail> {
    let text = BOOK_ANSWER.as_bytes();
    for room in 0..text.len() + 2 {
        let mut writer = Limited::new(rt.alloc(), room, 1, ErrorKind::Interrupted);
        let end = ended(rt.alloc(), WORDS, BOOK.as_bytes(), &mut writer)?;
        let is_whole = room > text.len();
        let wanted = if is_whole {
            Ok(Status::Done)
        } else {
            Err(RunFault::WriteFailed)
        };
        assert!(rt; end == wanted, "at {room}");
        let taken = room.min(text.len());
        assert!(rt; writer.taken.as_slice() == &text[..taken], "at {room}");
        let writes = (room + 1).min(text.len()) as u64;
        assert!(rt; writer.writes == writes, "at {room}");
        assert!(rt;
            writer.flushes == u64::from(room >= text.len()),
            "at {room}"
        );
    }
    Ok(())
}

#[test]
fn writer_fails_after_a_line(rt: HostRuntime) -> Result<(), Fail> {
    let mut writer = Limited::new(rt.alloc(), 12, MANY, ErrorKind::BrokenPipe);
    let words = &["show", "s.tex", "S", "NAME=2"];
    let end = ended(rt.alloc(), words, ONE.as_bytes(), &mut writer)?;
    assert!(rt; end == Err(RunFault::WriteFailed));
    assert_eq!(rt; writer.taken.as_slice(), b"x == NAME.1\n".as_slice());
    assert!(rt; writer.writes == 2 && writer.flushes == 0);
    Ok(())
}

/// A writer that takes nothing, by an error or without one. The first line is written before the second binding is looked for.
#[test]
fn writer_takes_nothing(rt: HostRuntime) -> Result<(), Fail> {
    for (room, step) in [(0, MANY), (MANY, 0)] {
        let mut writer = Limited::new(rt.alloc(), room, step, ErrorKind::BrokenPipe);
        let words = &["show", "s.tex", "S"];
        let end = ended(rt.alloc(), words, WIDE.as_bytes(), &mut writer)?;
        assert!(rt; end == Err(RunFault::WriteFailed));
        assert!(rt; writer.taken.is_empty() && writer.writes == 1 && writer.flushes == 0);
    }
    Ok(())
}

/// The reader gives three bytes a call. In the last turn it is not called so often that it fails.
#[test]
fn reader_fails_at_each_call(rt: HostRuntime) -> Result<(), Fail> {
    let calls = BOOK.len().div_ceil(3) as u64 + 1;
    for call in 1..calls + 2 {
        let mut reader = Failing::new(BOOK.as_bytes(), call, ErrorKind::Interrupted);
        let mut writer = Limited::new(rt.alloc(), MANY, MANY, ErrorKind::Interrupted);
        let end = ended(rt.alloc(), WORDS, &mut reader, &mut writer)?;
        assert!(rt; reader.reads == call.min(calls), "at {call}");
        if call > calls {
            assert!(rt; end == Ok(Status::Done));
            assert_eq!(rt; writer.taken.as_slice(), BOOK_ANSWER.as_bytes());
        } else {
            assert!(rt; end == Err(RunFault::ReadFailed), "at {call}");
            assert!(rt; writer.writes == 0 && writer.flushes == 0, "at {call}");
        }
    }
    Ok(())
}

#[test]
fn spaces_without_end(rt: HostRuntime) -> Result<(), Fail> {
    let mut reader = Endless { given: 0 };
    let mut written = Vec::new(rt.alloc());
    let end = ended(rt.alloc(), WORDS, &mut reader, &mut written)?;
    assert!(rt; end == Ok(Status::BadSpec) && reader.given == 1_048_577);
    assert_eq!(rt; written.as_slice(), b"s.tex: source too long\n".as_slice());
    Ok(())
}
