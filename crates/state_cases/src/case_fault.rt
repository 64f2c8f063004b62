//! Why a case can't be tried.
use std::alloc::{AllocError, AllocFailed};

/// Want of memory, or the number of the line that says nothing, from 1.
#[derive(Clone, Copy)]
pub(crate) enum CaseFault {
    Memory,
    Malformed(usize),
}

impl From<AllocError> for CaseFault {
    fn from(_error: AllocError) -> CaseFault {
        CaseFault::Memory
    }
}

impl<T: Drop> From<AllocFailed<T>> for CaseFault {
    fn from(_error: AllocFailed<T>) -> CaseFault {
        CaseFault::Memory
    }
}
