//! Documents whose references are resolved.
ghost use Rattle.std.specs.Prelude.{◌≡◌, ◌≢◌, None, Some, IfOk, IfErr};
ghost use Rattle.openapi_resolve.specs.Resolved.{component_of};
ghost use Rattle.openapi_resolve.specs.declared.error.ResolveError.TheVariants.{OutOfMemory};

use crate::chain::{follow, push};
use crate::component::Component;
use crate::error::ResolveError;
use openapi_documents::OpenAPI;
use openapi_values::ReferenceOr;

/// A document whose references are resolved to its components.
pub trait Resolve {
    ghost use Rattle.std.specs.Prelude.{◌≡◌, ◌≢◌, None, Some, IfOk, IfErr, Option};
    ghost use Rattle.openapi_documents.specs.declared.components.Components.{Components};
    ghost use Rattle.openapi_values.specs.Reference.{unboxed};
    ghost use Rattle.openapi_resolve.specs.Resolved.{component_of, item_or};
    ghost use Rattle.openapi_resolve.specs.declared.error.ResolveError.TheVariants.{OutOfMemory};

    /// The components, if there are any.
    ghost components_of: { Self → Option Components };

    /// Returns the component to which a reference such as `#/components/schemas/Pet` leads. If the component is itself
    /// a reference, that one is followed.
    ///
    /// # Errors
    ///
    /// Returns [`ResolveError::Missing`] or [`ResolveError::Cycle`] with the references that were followed, and
    /// [`ResolveError::OutOfMemory`] if an allocation fails.
    fn component<'a, T: Component>(&'a self, reference: &'a str) -> Result<&'a T, ResolveError>
        ensures found { IfOk result (λ x.
            component_of T.the_section (components_of self.now) reference.now ≡ Some x.now) }
        ensures missing { IfErr result (λ e. e ≢ OutOfMemory
            → component_of T.the_section (components_of self.now) reference.now ≡ None) };

    /// Returns the item, or the component to which its reference leads, as [`component`](Resolve::component) does.
    ///
    /// # Errors
    ///
    /// Returns the errors of [`component`](Resolve::component).
    ///
    /// # Examples
    ///
    /// ```rust
    /// fn title_of<'a>(
    ///     document: &'a OpenAPI,
    ///     item: &'a ReferenceOr<Schema>,
    /// ) -> Result<Option<&'a str>, ResolveError> {
    ///     let schema: &Schema = document.resolve(item)?;
    ///     Ok(schema.schema_data.title.as_deref())
    /// }
    /// ```
    fn resolve<'a, T: Component>(&'a self, item: &'a ReferenceOr<T>) -> Result<&'a T, ResolveError>
        ensures found { IfOk result (λ x.
            item_or (component_of T.the_section (components_of self.now)) item.now ≡ Some x.now) }
        ensures missing { IfErr result (λ e. e ≢ OutOfMemory
            → item_or (component_of T.the_section (components_of self.now)) item.now ≡ None) }
    {
        match item {
            ReferenceOr::Item(item) => Ok(item),
            ReferenceOr::Reference { reference } => self.component(reference.as_str()),
        }
    }

    /// Returns the boxed item, such as a property of a schema, or the component to which its reference leads.
    ///
    /// # Errors
    ///
    /// Returns the errors of [`component`](Resolve::component).
    fn resolve_boxed<'a, T: Component>(
        &'a self,
        item: &'a ReferenceOr<Box<T>>,
    ) -> Result<&'a T, ResolveError>
        ensures found { IfOk result (λ x.
            item_or (component_of T.the_section (components_of self.now)) (unboxed item.now) ≡ Some x.now) }
        ensures missing { IfErr result (λ e. e ≢ OutOfMemory
            → item_or (component_of T.the_section (components_of self.now)) (unboxed item.now) ≡ None) }
    {
        match item {
            ReferenceOr::Item(item) => Ok(item),
            ReferenceOr::Reference { reference } => self.component(reference.as_str()),
        }
    }
}

impl Resolve for OpenAPI {
    ghost components_of = { λ d. d.components };

    fn component<'a, T: Component>(&'a self, reference: &'a str) -> Result<&'a T, ResolveError> {
        component_in(self, reference)
    }
}

/// Returns the component of a document to which a reference leads.
fn component_in<'a, T: Component>(
    document: &'a OpenAPI,
    reference: &'a str,
) -> Result<&'a T, ResolveError>
    ensures found { IfOk result (λ x.
        component_of T.the_section document.now.components reference.now ≡ Some x.now) }
    ensures missing { IfErr result (λ e. e ≢ OutOfMemory
        → component_of T.the_section document.now.components reference.now ≡ None) }
{
    match &document.components {
        Some(components) => follow(T::all(components), T::section(), reference),
        None => {
            let mut chain = Vec::new(*document.extensions.allocator());
            push(&mut chain, reference)?;
            Err(ResolveError::Missing(chain))
        }
    }
}
