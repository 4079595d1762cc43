//! Runs of a command line over devices.
use std::alloc::Global;
use std::io::{Read, Write};
use std::test::Fail;
use zf_command::{Asked, job_of};
use zf_engine::run::run;
use zf_lines::{Counted, RunFault, Status};

/// How a run of the words ends.
pub fn ended<R: Read + Drop, W: Write + Drop>(
    alloc: Global,
    words: &[&str],
    reader: R,
    writer: W,
) -> Result<Result<Status, RunFault>, Fail> {
    match job_of(alloc, words)? {
        Asked::Work(file, job) => {
            let mut reader = Counted::new(reader);
            let mut writer = Counted::new(writer);
            Ok(run(alloc, &job, file.as_str(), &mut reader, &mut writer))
        }
        Asked::About(_text) => Err(Fail::new("help")),
    }
}
