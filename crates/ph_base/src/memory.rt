//! The want of memory, one answer for the whole of payhost.

use std::alloc::{AllocError, AllocFailed};

/// There was no memory. No contract says when this comes; each says what stands after it.
#[derive(Clone, Copy, Debug, PartialEq, Eq)]
pub struct NoMemory;

impl From<AllocError> for NoMemory {
    fn from(_: AllocError) -> Self {
        NoMemory
    }
}

impl<T: Drop> From<AllocFailed<T>> for NoMemory {
    fn from(_: AllocFailed<T>) -> Self {
        NoMemory
    }
}
