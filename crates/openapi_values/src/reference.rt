//! The Reference Object, which replaces what it refers to.
ghost use Rattle.std.specs.Prelude.{◌≡◌, IfOk, Some};
ghost use Rattle.std.specs.Option.{option_copied};
ghost use Rattle.openapi_values.specs.Reference.{item_of, reference_of, unboxed};

use std::alloc::{AllocError, Global};

/// A reference to an item, or the item itself.
#[derive(Clone, Debug, PartialEq, Drop)]
pub enum ReferenceOr<T> {
    /// A reference: the text of `$ref`, which is neither checked nor followed.
    Reference { reference: String },
    /// The item.
    Item(T),
}

impl<T> ReferenceOr<T> {
    /// Creates a reference with a copy of the text.
    ///
    /// # Errors
    ///
    /// Returns [`AllocError`] if the allocation of the copy fails.
    pub fn ref_(alloc: Global, reference: &str) -> Result<ReferenceOr<T>, AllocError>
        ensures { IfOk result (λ made. reference_of made ≡ Some reference.now) }
    {
        Ok(ReferenceOr::Reference {
            reference: String::from_str(alloc, reference)?,
        })
    }

    /// Creates an item in a box.
    ///
    /// # Errors
    ///
    /// Returns [`AllocError`] if the allocation of the box fails. The item is then dropped.
    pub fn boxed_item(alloc: Global, item: T) -> Result<ReferenceOr<Box<T>>, AllocError>
    where
        T: Drop,
        ensures { IfOk result (λ made. unboxed made ≡ ReferenceOr.Item item) }
    {
        Ok(ReferenceOr::Item(Box::new(alloc, item)?))
    }

    /// Returns the item, or `None` for a reference, whose text is dropped.
    pub fn into_item(self) -> Option<T>
        ensures { result ≡ item_of self }
    {
        match self {
            ReferenceOr::Reference { reference: _ } => None,
            ReferenceOr::Item(item) => Some(item),
        }
    }

    /// Returns a borrow of the item, or `None` for a reference.
    pub fn as_item(&self) -> Option<&T>
        ensures { option_copied result ≡ item_of self.now }
    {
        let ReferenceOr::Item(item) = self else {
            return None;
        };
        Some(item)
    }
}

impl<T> ReferenceOr<Box<T>> {
    /// Moves the item out of its box. A reference stays as it is.
    pub fn unbox(self) -> ReferenceOr<T>
        ensures { result ≡ unboxed self }
    {
        match self {
            ReferenceOr::Reference { reference } => ReferenceOr::Reference { reference },
            ReferenceOr::Item(item) => ReferenceOr::Item(Box::into_inner(item)),
        }
    }
}
