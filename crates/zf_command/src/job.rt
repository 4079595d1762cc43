//! Jobs, and what a command line asks for.
ghost use Rattle.std.specs.Prelude.{◌≡◌};
ghost use Rattle.zf_command.specs.declared.job.UsageFault.TheVariants.{OutOfMemory};

use std::alloc::AllocError;
use thiserror::Error;
use zf_data::{Items, Word};
use zf_format::Format;

/// A size word: the name and the size of a given set.
#[derive(Drop)]
pub struct Size {
    pub name: Word,
    pub count: u64,
}

/// How large the given sets and the sets of numbers are.
#[derive(Drop)]
pub struct Setting {
    /// The sizes of given sets.
    pub sizes: Items<Size>,
    /// The size of each other given set.
    pub size: Option<u64>,
    /// The greatest number, if numbers have an end.
    pub numbers: Option<u64>,
}

/// What `show` or `why` is asked for.
#[derive(Drop)]
pub struct Request {
    /// The name of the schema.
    pub name: Word,
    pub setting: Setting,
    /// The line of the binding after which it begins.
    pub after: Option<Word>,
    /// The line of some components, whose values are held.
    pub held: Option<Word>,
    /// The names of the components that alone are shown.
    pub only: Option<Word>,
    /// How many bindings it writes at most.
    pub limit: Option<u64>,
    /// Whether it tells the number of tests.
    pub tests: bool,
    /// Whether it tells what faults are about.
    pub details: bool,
    pub format: Format,
}

/// What `reach` is asked for.
#[derive(Drop)]
pub struct Exploration {
    /// The name of the schema of the state.
    pub state: Word,
    /// The name of the schema of the initial states.
    pub initial: Word,
    /// The names of the operations.
    pub operations: Items<Word>,
    /// The name of the schema of which a state is sought.
    pub sought: Option<Word>,
    pub setting: Setting,
    /// How many states it writes at most, or meets where one is sought.
    pub limit: Option<u64>,
    /// Whether it writes a graph.
    pub graph: bool,
    /// Whether it tells what faults are about.
    pub details: bool,
    pub format: Format,
}

/// What is asked of a file.
#[derive(Drop)]
pub enum Job {
    /// The faults; if `details`, with lines that say what each is about; then, if `types`, what is defined, with its
    /// types.
    Check {
        types: bool,
        details: bool,
        format: Format,
    },
    /// The bindings of a schema.
    Show(Request),
    /// A binding of a schema, or why it has none; begun after no binding, of all components, without a limit and a count
    /// of tests.
    Why(Request),
    /// The states that can be reached and the steps between them, or a shortest way to one that is sought.
    Reach(Exploration),
}

/// What the words of a command line ask for.
#[derive(Drop)]
pub enum Asked {
    /// The file, as it was given, and the job on it.
    Work(Word, Job),
    /// The text of help, or of the version.
    About(Word),
}

/// Why words are not read.
#[derive(Clone, Copy, Debug, PartialEq, Eq, Error)]
pub enum UsageFault {
    #[error("bad arguments")]
    BadWords,
    #[error("out of memory")]
    OutOfMemory,
}

impl From<AllocError> for UsageFault {
    ghost from_gives = { λ _ fault. fault ≡ OutOfMemory };

    fn from(_error: AllocError) -> UsageFault {
        UsageFault::OutOfMemory
    }
}
