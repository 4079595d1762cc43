//! Every front of a text is well typed, or has one of three faults.
use crate::tests::runs::ended;
use crate::tests::sources::BOOK;
use std::test::Fail;
use zf_lines::Status;

static FAULTS: [&str; 3] = [
    "byte not in the markup",
    "unknown command",
    "box is not closed",
];

#[test]
fn each_front(rt: HostRuntime) -> Result<(), Fail> {
    let source = BOOK.as_bytes();
    for stop in 0..source.len() {
        let mut written = Vec::new(rt.alloc());
        let end = ended(
            rt.alloc(),
            &["check", "s.tex"],
            &source[..stop],
            &mut written,
        )?;
        let text = String::from_utf8(written)?;
        let fits = match end {
            Ok(Status::Done) => text.is_empty(),
            Ok(Status::BadSpec) => is_fault(text.as_str()),
            _ => false,
        };
        assert!(rt; fits, "at {stop}");
    }
    Ok(())
}

/// Whether the text is one line of one of the faults.
fn is_fault(text: &str) -> bool {
    let Some((file, rest)) = text.split_once(':') else {
        return false;
    };
    let Some((line, message)) = rest.split_once(": ") else {
        return false;
    };
    let Some(fault) = message.strip_suffix('\n') else {
        return false;
    };
    file == "s.tex" && line.parse::<u32>().is_ok() && FAULTS.contains(&fault)
}
