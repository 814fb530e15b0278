use std::alloc::{AllocError, AllocFailed};
use thiserror::Error;

/// Want of memory: an allocation was refused. A call that allocates may always answer it, and its contract says
/// what stands after it.
#[derive(Clone, Copy, Debug, PartialEq, Eq, Error)]
#[error("no memory")]
pub struct Memory;

/// A fault of an outside object: a disk, a source or a sink. It is answered only where that object's count of
/// faults rose in the call.
#[derive(Clone, Copy, Debug, PartialEq, Eq, Error)]
#[error("fault of a device or stream")]
pub struct Failed;

impl From<AllocError> for Memory {
    fn from(_error: AllocError) -> Memory {
        Memory
    }
}

impl<T: Drop> From<AllocFailed<T>> for Memory {
    fn from(_error: AllocFailed<T>) -> Memory {
        Memory
    }
}
