//! A text without some ranges of its bytes.
ghost use Rattle.std.specs.Prelude.{◌≡◌, IfOk, map};
ghost use Rattle.openapi_removal.specs.Cut.{cut, gap_of};

use std::alloc::{AllocError, Global};

/// A range of a text that is left out, and how far it is behind the one before.
#[derive(Clone, Copy, Drop)]
pub(crate) struct Gap {
    /// How many bytes are kept before it.
    pub kept: usize,
    /// How many bytes are left out.
    pub left_out: usize,
}

/// Returns a text without some ranges of its bytes.
pub(crate) fn cut(alloc: Global, text: &[u8], gaps: &[Gap]) -> Result<Vec<u8>, AllocError>
    ensures { IfOk result (λ v. v.items ≡ cut (map gap_of gaps.now) text.now) }
{
    let mut bytes = Vec::with_capacity(alloc, text.len())?;
    let mut rest = text;
    for gap in gaps {
        let (kept, more) = rest.split_at(gap.kept.min(rest.len()));
        bytes.extend_from_slice(kept)?;
        let (_, behind) = more.split_at(gap.left_out.min(more.len()));
        rest = behind;
    }
    bytes.extend_from_slice(rest)?;
    Ok(bytes)
}
