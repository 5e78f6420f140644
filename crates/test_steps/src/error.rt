// Errors of a case.
use protocol::refusal::Refusal;
use std::alloc::AllocError;

/// Why a case is not played to its end.
#[derive(Clone, Copy)]
pub enum CaseError {
    Malformed,
    Memory(AllocError),
}

impl From<AllocError> for CaseError {
    fn from(error: AllocError) -> CaseError {
        CaseError::Memory(error)
    }
}

// A case is malformed where its measures, its tables or its dead blocks are refused.
impl From<Refusal> for CaseError {
    fn from(_refusal: Refusal) -> CaseError {
        CaseError::Malformed
    }
}
