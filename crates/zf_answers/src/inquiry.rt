//! What is asked of a schema.

use std::alloc::Global;
use zf_command::Request;
use zf_messages::Report;

/// What is asked of a schema, and how faults of the source are reported.
#[derive(Clone, Copy)]
pub struct Inquiry<'s> {
    pub alloc: Global,
    pub request: &'s Request,
    pub report: Report<'s>,
}
