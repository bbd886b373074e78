//! Marks for `tests/memory.sh`, which watches the requests for memory from outside.

use std::alloc::{AllocError, Global};

/// A moment of the run.
#[derive(Clone, Copy)]
pub enum Moment {
    /// Nothing but the words of the command line is held.
    Start,
    /// The call begins: the next request is its first.
    CallBegins,
    /// The call has ended: its last request was the one before.
    CallEnds,
    /// All that was made since the start was dropped.
    End,
}

impl Moment {
    /// Returns a number of bytes that nothing else allocates.
    fn size(self) -> usize {
        match self {
            Moment::Start => 1_111_111,
            Moment::CallBegins => 1_234_567,
            Moment::CallEnds => 7_654_321,
            Moment::End => 9_999_999,
        }
    }
}

/// Allocates as many bytes as the moment has, and drops them.
///
/// # Errors
///
/// Returns [`AllocError`] if the allocation fails.
pub fn mark(alloc: Global, moment: Moment) -> Result<(), AllocError> {
    drop(room(alloc, moment.size())?);
    Ok(())
}

/// Allocates some bytes. It is a function that is not inlined, so that no compiler sees that the bytes are not used.
#[inline(never)]
fn room(alloc: Global, size: usize) -> Result<Vec<u8>, AllocError> {
    Vec::with_capacity(alloc, size)
}
