// Want of memory.
use std::alloc::{AllocError, AllocFailed};

/// Want of memory. It may come from each call that has it among its answers; no clause ties it to a cause.
#[derive(Clone, Copy, Debug, PartialEq, Eq)]
pub struct Memory;

impl From<AllocError> for Memory {
    fn from(_fault: AllocError) -> Memory {
        Memory
    }
}

impl<T: Drop> From<AllocFailed<T>> for Memory {
    fn from(_fault: AllocFailed<T>) -> Memory {
        Memory
    }
}
