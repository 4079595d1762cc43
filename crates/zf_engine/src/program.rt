//! All that the program does: words in, a status out.
ghost use Rattle.std.specs.Prelude.{◌≡◌, ◌≤◌, ◌⊎◌, map};
ghost use Rattle.zf_engine.specs.{IsLimited, IsStatus, IsStatusOfRefused, IsWorkStatus, refused_number, status_max};

use crate::run::run;
use std::convert::AsStr;
use std::fs::File;
use std::io;
use std::io::Read;
use std::rt::Files;
use zf_command::{Asked, Job, UNREAD, UsageFault, job_of, why_refused};
use zf_lines::{Counted, RunFault};

const BAD_ARGUMENTS: &str = "zf: bad arguments";

const OUT_OF_MEMORY: &str = "zf: out of memory";

/// Does what the words after the program's own name ask for. The answer is the status. Further lines say why words are
/// refused, if that is to be explained or the words ask for details.
pub fn program<R: Files + Input + Print + Eprint + AllocGlobal, S: AsStr>(
    rt: &R,
    words: &[S],
    explained: bool,
) -> u8
    ensures bound { result ≤ status_max }
    ensures status { IsStatus (map S.text words.now) result }
    ensures refused { IsStatusOfRefused (map S.text words.now) result }
{
    match job_of(rt.alloc(), words) {
        Ok(Asked::Work(file, job)) => work(rt, file.as_str(), &job),
        Ok(Asked::About(text)) => tell(rt, text.as_str()),
        Err(UsageFault::BadWords) => refuse_words(rt, words, explained || ask_for_details(words)),
        Err(UsageFault::OutOfMemory) => complain(rt, OUT_OF_MEMORY, 4),
    }
}

/// Refuses words that cannot be read, and says why, if that is to be explained. The answer is the status.
pub fn refuse<R: Eprint>(rt: &R, fault: UsageFault, explained: bool) -> u8
    ensures { result ≡ refused_number fault }
{
    match fault {
        UsageFault::BadWords => {
            let status = complain(rt, BAD_ARGUMENTS, 2);
            if explained {
                return complain(rt, UNREAD, status);
            }
            status
        }
        UsageFault::OutOfMemory => complain(rt, OUT_OF_MEMORY, 4),
    }
}

/// Whether one of the words is the option for details.
fn ask_for_details<S: AsStr>(words: &[S]) -> bool {
    words
        .iter()
        .any(|word| matches!(word.as_str(), "-d" | "--details"))
}

/// Says that words are refused, and why, if that is to be explained and memory doesn't run out. The answer is the status.
fn refuse_words<R: Eprint + AllocGlobal, S: AsStr>(rt: &R, words: &[S], explained: bool) -> u8
    ensures { result ≡ 2 }
{
    let status = complain(rt, BAD_ARGUMENTS, 2);
    if !explained {
        return status;
    }
    match why_refused(rt.alloc(), words) {
        Ok(lines) => complain(rt, lines.as_str(), status),
        Err(_) => status,
    }
}

/// Writes the text of help, or of the version.
fn tell<R: Print + Eprint>(rt: &R, text: &str) -> u8
    ensures { (result ≡ 0) ⊎ (result ≡ 5) }
{
    match rt.print(text) {
        Ok(()) => 0,
        Err(_) => complain(rt, "zf: write failed", 5),
    }
}

/// Does the job on the file, which is standard input where it is `-`.
fn work<R: Files + Input + Print + Eprint + AllocGlobal>(rt: &R, file: &str, job: &Job) -> u8
    requires { IsLimited job.now }
    ensures { IsWorkStatus job.now file.now result }
{
    if file == "-" {
        return work_over(rt, file, job, rt.reader());
    }
    match File::open(rt, file) {
        Ok(opened) => work_over(rt, file, job, opened),
        Err(_) => {
            let _ = eprintln!(rt; "zf: cannot open {file}");
            5
        }
    }
}

/// Does the job on what the device reads.
fn work_over<R: Print + Eprint + AllocGlobal, D: Read + Drop>(
    rt: &R,
    file: &str,
    job: &Job,
    device: D,
) -> u8
    requires { IsLimited job.now }
    ensures { IsWorkStatus job.now file.now result }
{
    let mut reader = Counted::new(device);
    let mut writer = Counted::new(io::writer(rt));
    match run(rt.alloc(), job, file, &mut reader, &mut writer) {
        Ok(status) => status.number(),
        Err(RunFault::ReadFailed) => complain(rt, "zf: read failed", 5),
        Err(RunFault::WriteFailed) => complain(rt, "zf: write failed", 5),
        Err(RunFault::OutOfMemory) => complain(rt, OUT_OF_MEMORY, 4),
    }
}

/// Says what went wrong, and gives the status. A write that fails changes nothing.
fn complain<R: Eprint>(rt: &R, text: &str, status: u8) -> u8
    ensures { result ≡ status }
{
    let _ = rt.eprintln(text);
    status
}
