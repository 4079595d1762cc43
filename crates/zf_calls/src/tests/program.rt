//! The statuses of the program.
use std::test::Fail;
use zf_engine::program::program;

static STATUSES: [(&[&str], u8); 13] = [
    (&[], 2),
    (&["show", "s.tex"], 2),
    (&["show", "s.tex", "S", "NAME"], 2),
    (&["show", "--limit", "0", "s.tex", "S"], 2),
    (&["check", "/dev/null"], 0),
    (&["check", "/dev/zero"], 1),
    (&["show", "/dev/null", "S"], 2),
    (&["show", "no/such/file.tex", "S"], 5),
    (&["show", "--help"], 0),
    (&["check", "--json", "/dev/zero"], 1),
    (&["check", "-t", "--json", "/dev/null"], 2),
    (&["show", "--only", "x", "--tests", "/dev/null", "S"], 2),
    (&["reach", "--dot", "--json", "/dev/null", "S", "I", "O"], 2),
];

#[test]
fn statuses(rt: HostRuntime) -> Result<(), Fail> {
    for (words, status) in &STATUSES {
        assert!(rt; program(&rt, words, false) == *status, "{words:?}");
    }
    Ok(())
}
