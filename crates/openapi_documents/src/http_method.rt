//! The HTTP methods of a path item, and the operation under each.
ghost use Rattle.std.specs.Prelude.{◌≡◌, refl};
ghost use Rattle.std.specs.Borrow.{sem};
ghost use Rattle.std.specs.Option.{option_copied, option_copied_mut};
ghost use Rattle.openapi_tables.specs.Operations.{methods};
ghost use Rattle.openapi_values.specs.Words.{IsWordRead};
ghost use Rattle.openapi_documents.specs.ByMethod.{lends_operation, method_word, operation_under};

use crate::operation::Operation;
use crate::path_item::PathItem;
use openapi_values::Word;
use std::str::FromStr;

/// An HTTP method for which the Path Item Object (OpenAPI 3.0.3, section 4.7.9) has a field.
#[derive(Clone, Copy, Debug, PartialEq, Eq, Hash)]
pub enum Method {
    /// `get`
    Get,
    /// `put`
    Put,
    /// `post`
    Post,
    /// `delete`
    Delete,
    /// `options`
    Options,
    /// `head`
    Head,
    /// `patch`
    Patch,
    /// `trace`
    Trace,
}

/// A method is read and written as the name of its field in a document, in lower case.
impl Word for Method {
    ghost use Rattle.openapi_documents.specs.declared.http_method.Method.TheVariants as variants;

    ghost words = { methods };

    ghost word_of = { method_word };

    ghost known = { elim [
      | variants.Get ↦ refl
      | variants.Put ↦ refl
      | variants.Post ↦ refl
      | variants.Delete ↦ refl
      | variants.Options ↦ refl
      | variants.Head ↦ refl
      | variants.Patch ↦ refl
      | variants.Trace ↦ refl
    ] };

    fn all() -> &'static [Method] {
        &[
            Method::Get,
            Method::Put,
            Method::Post,
            Method::Delete,
            Method::Options,
            Method::Head,
            Method::Patch,
            Method::Trace,
        ]
    }

    fn as_str(&self) -> &'static str {
        match self {
            Method::Get => "get",
            Method::Put => "put",
            Method::Post => "post",
            Method::Delete => "delete",
            Method::Options => "options",
            Method::Head => "head",
            Method::Patch => "patch",
            Method::Trace => "trace",
        }
    }
}

impl FromStr for Method {
    type Err = ();

    ghost from_str_gives = { IsWordRead method_word methods };

    /// Reads the name of a field, such as `get`.
    ///
    /// # Errors
    ///
    /// Returns `()` for any other text, also for `GET`.
    fn from_str(text: &str) -> Result<Method, ()> {
        Method::from_word(text).ok_or(())
    }
}

impl PathItem {
    /// Returns the operation under a method, or `None` if there is none.
    pub fn get(&self, method: Method) -> Option<&Operation>
        ensures { option_copied result ≡ operation_under method self.now }
    {
        match method {
            Method::Get => self.get.as_ref(),
            Method::Put => self.put.as_ref(),
            Method::Post => self.post.as_ref(),
            Method::Delete => self.delete.as_ref(),
            Method::Options => self.options.as_ref(),
            Method::Head => self.head.as_ref(),
            Method::Patch => self.patch.as_ref(),
            Method::Trace => self.trace.as_ref(),
        }
    }

    /// Returns a mutable reference to the operation under a method, or `None` if there is none. To add or remove an
    /// operation, assign to the field of the method.
    pub fn get_mut(&mut self, method: Method) -> Option<&mut Operation>
        ensures* writes_back { sem 𝓛 (lends_operation self.entry method result) }
        ensures value { option_copied_mut result ≡ operation_under method self.old }
    {
        match method {
            Method::Get => self.get.as_mut(),
            Method::Put => self.put.as_mut(),
            Method::Post => self.post.as_mut(),
            Method::Delete => self.delete.as_mut(),
            Method::Options => self.options.as_mut(),
            Method::Head => self.head.as_mut(),
            Method::Patch => self.patch.as_mut(),
            Method::Trace => self.trace.as_mut(),
        }
    }
}
