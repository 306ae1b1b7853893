// Why a case fails.

use std::alloc::{AllocError, AllocFailed};

/// Why a case fails.
#[derive(Drop)]
pub enum Failure {
    /// What differs, in words.
    Differs(String),
    /// Memory was wanting.
    NoMemory,
}

impl From<AllocError> for Failure {
    fn from(_error: AllocError) -> Failure {
        Failure::NoMemory
    }
}

impl<T: Drop> From<AllocFailed<T>> for Failure {
    fn from(_error: AllocFailed<T>) -> Failure {
        Failure::NoMemory
    }
}
