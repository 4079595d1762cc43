//! Each call of a counted device calls the device once, whatever that answers.
use crate::devices::{Failing, Limited};
use std::io::{ErrorKind, Read, Write};
use std::test::Fail;
use zf_lines::Counted;

static ERRORS: [ErrorKind; 3] = [
    ErrorKind::Interrupted,
    ErrorKind::BrokenPipe,
    ErrorKind::WouldBlock,
];

#[test]
fn one_read_a_call(rt: HostRuntime) -> Result<(), Fail> {
    for error in ERRORS {
        for fails_at in 1..5 {
            let mut reader = Counted::new(Failing::new(b"abcd", fails_at, error));
            for call in 1..5 {
                let mut bytes = [0u8; 8];
                let is_failed = reader.read(&mut bytes).is_err();
                assert!(rt; is_failed == (call == fails_at), "{call} of {fails_at}");
                assert!(rt; reader.device().reads == call, "{call} of {fails_at}");
                assert!(rt;
                    reader.failures() == u64::from(call >= fails_at),
                    "{call} of {fails_at}"
                );
            }
        }
    }
    Ok(())
}

#[test]
fn one_write_a_call(rt: HostRuntime) -> Result<(), Fail> {
    for error in ERRORS {
        let mut writer = Counted::new(Limited::new(rt.alloc(), 3, 2, error));
        for call in 1..5 {
            let is_failed = writer.write(b"ab").is_err();
            assert!(rt; is_failed == (call > 2), "{call}");
            assert!(rt; writer.device().writes == call, "{call}");
            assert!(rt; writer.failures() == call.saturating_sub(2), "{call}");
        }
        assert!(rt; writer.device().taken.as_slice() == b"aba".as_slice());
    }
    Ok(())
}

#[test]
fn one_flush_a_call(rt: HostRuntime) -> Result<(), Fail> {
    for error in ERRORS {
        for room in 0..2 {
            let mut writer = Counted::new(Limited::new(rt.alloc(), room, 1, error));
            for call in 1..4 {
                let is_failed = writer.flush().is_err();
                assert!(rt; is_failed == (room == 0), "{call}");
                assert!(rt;
                    writer.device().flushes == call && writer.device().writes == 0,
                    "{call}"
                );
                assert!(rt;
                    writer.failures() == if room == 0 { call } else { 0 },
                    "{call}"
                );
            }
        }
    }
    Ok(())
}

#[test]
fn nothing_taken(rt: HostRuntime) -> Result<(), Fail> {
    let mut writer = Counted::new(Limited::new(rt.alloc(), 3, 0, ErrorKind::Interrupted));
    let empty = writer.write(b"");
    assert!(rt; empty.is_ok() && writer.failures() == 0 && writer.device().writes == 1);
    let some = writer.write(b"a");
    assert!(rt; some.is_ok() && writer.failures() == 1 && writer.device().writes == 2);
    Ok(())
}
