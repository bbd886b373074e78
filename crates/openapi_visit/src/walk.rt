//! The way through a document, from each part to the parts inside it.
use crate::part::Part;
use crate::parts::Parts;
use openapi_documents::OpenAPI;
use std::alloc::{AllocError, Global};

/// The parts of a document that are not visited yet, and not inside one of these, the next one last.
#[derive(Drop)]
pub(crate) struct Walk<'a> {
    alloc: Global,
    left: Vec<(String, Part<'a>)>,
}

impl<'a> Walk<'a> {
    pub(crate) fn new(alloc: Global, document: &'a OpenAPI) -> Result<Walk<'a>, AllocError> {
        let mut left = Vec::new(alloc);
        left.push((String::new(alloc), Part::Document(document)))?;
        Ok(Walk { alloc, left })
    }

    /// Returns the next part with its location, and adds the parts inside it.
    pub(crate) fn next(&mut self) -> Result<Option<(String, Part<'a>)>, AllocError> {
        let Some((location, part)) = self.left.pop() else {
            return Ok(None);
        };
        let mut parts = Parts::new(self.alloc, location);
        parts.inside(part);
        let Parts {
            location,
            found,
            result,
            ..
        } = parts;
        result?;
        for inner in found.into_iter().rev() {
            self.left.push(inner)?;
        }
        Ok(Some((location, part)))
    }
}
