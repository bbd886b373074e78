//! The way through a document that is changed, from each part to the parts inside it.
use crate::part_mut::PartMut;
use crate::parts_mut::PartsMut;
use openapi_documents::OpenAPI;
use std::alloc::{AllocError, Global};

/// The parts of a document that are not visited yet, and not inside one of these, the next one last.
#[derive(Drop)]
pub(crate) struct WalkMut<'a> {
    alloc: Global,
    left: Vec<(String, PartMut<'a>)>,
}

impl<'a> WalkMut<'a> {
    pub(crate) fn new(alloc: Global, document: &'a mut OpenAPI) -> Result<WalkMut<'a>, AllocError> {
        let mut left = Vec::new(alloc);
        left.push((String::new(alloc), PartMut::Document(document)))?;
        Ok(WalkMut { alloc, left })
    }

    /// Removes the next part, and returns it with its location.
    pub(crate) fn next(&mut self) -> Option<(String, PartMut<'a>)> {
        self.left.pop()
    }

    /// Adds the parts inside a part, which is at this location.
    pub(crate) fn add_inside(
        &mut self,
        location: String,
        part: PartMut<'a>,
    ) -> Result<(), AllocError> {
        let mut parts = PartsMut::new(self.alloc, location);
        parts.inside(part);
        parts.result?;
        for inner in parts.found.into_iter().rev() {
            self.left.push(inner)?;
        }
        Ok(())
    }
}
