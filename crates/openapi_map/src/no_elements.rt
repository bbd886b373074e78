//! Borrowing anything as an empty slice.
ghost use Rattle.std.specs.Prelude.{◌≡◌, []};
ghost use Rattle.std.specs.Borrow.{sem, follows, Array};

use std::slice;

/// Borrows a value mutably as a slice of no elements of another type.
///
/// A proof follows a borrow only if the result is borrowed from the argument, which `&mut []` is not. So a function that
/// borrows the values of a map returns this slice if the map keeps nothing. This is the only use of `unsafe` in the crate,
/// and it is proved: no element is read or written through the pointer.
pub(crate) fn no_elements<T, S>(at: &mut S) -> &mut [T]
    ensures* writes_back { sem 𝓛 (follows S.row (Array T.row 0) at.entry.ghost_name result.ghost_name (λ _. at.old)) }
    ensures value { result.now ≡ [] }
{
    unsafe { slice::from_raw_parts_mut(at as *mut S as *mut T, 0) }
}
