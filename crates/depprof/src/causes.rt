// Why a call of the system failed.
use std::io;

/// What was asked of the system.
#[derive(Clone, Copy, Debug, PartialEq, Eq)]
pub enum Call {
    Open,
    Read,
    Create,
    Write,
}

/// A call that failed, and what the system said.
#[derive(Drop)]
pub struct Cause {
    pub call: Call,
    pub error: io::Error,
}
