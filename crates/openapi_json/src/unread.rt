//! Why a text was not read in one pass.
use std::alloc::{AllocError, AllocFailed};

/// Why one pass over the tokens gave no node.
#[derive(Clone, Copy, Drop)]
pub(crate) enum Unread {
    /// An allocation failed.
    Memory,
    /// Something else, which the pass does not distinguish.
    Other,
}

impl From<AllocError> for Unread {
    fn from(_refused: AllocError) -> Unread {
        Unread::Memory
    }
}

impl<T: Drop> From<AllocFailed<T>> for Unread {
    fn from(_refused: AllocFailed<T>) -> Unread {
        Unread::Memory
    }
}

impl From<json::Invalid> for Unread {
    fn from(_invalid: json::Invalid) -> Unread {
        Unread::Other
    }
}
