//! Why a row isn't run.

use std::alloc::AllocError;

#[derive(Clone, Copy, Debug, PartialEq, Eq)]
pub enum Fault {
    /// A file, or a line of it, isn't of the form.
    Form,
    /// There was no memory.
    Memory,
}

impl From<AllocError> for Fault {
    fn from(_error: AllocError) -> Fault {
        Fault::Memory
    }
}
