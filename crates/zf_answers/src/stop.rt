//! Why no binding is looked for.
ghost use Rattle.std.specs.Prelude.{◌≡◌, ◌∷◌, []};
ghost use Rattle.zf_answers.specs.declared.stop.Stop.TheVariants.{OutOfMemory};
ghost use Rattle.zf_answers.specs.{IfAnswered};

use std::alloc::{AllocError, AllocFailed, Global};
use zf_data::Items;
use zf_lines::Status;
use zf_messages::Message;

/// Why no binding is looked for.
#[derive(Drop)]
pub enum Stop {
    /// The messages that are the whole answer, and its status.
    Answered(Items<Message>, Status),
    OutOfMemory,
}

impl Stop {
    /// The answer of one message.
    pub fn told(alloc: Global, message: Message, status: Status) -> Stop
        ensures { IfAnswered result (λ told s. (told ≡ message ∷ []) × (s ≡ status)) }
    {
        match Items::of(alloc, message) {
            Ok(messages) => Stop::Answered(messages, status),
            Err(_) => Stop::OutOfMemory,
        }
    }
}

impl From<AllocError> for Stop {
    ghost from_gives = { λ _ stop. stop ≡ OutOfMemory };

    fn from(_error: AllocError) -> Stop {
        Stop::OutOfMemory
    }
}

impl<T: Drop> From<AllocFailed<T>> for Stop {
    ghost from_gives = { λ _ stop. stop ≡ OutOfMemory };

    fn from(_error: AllocFailed<T>) -> Stop {
        Stop::OutOfMemory
    }
}
