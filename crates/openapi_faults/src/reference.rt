//! Every reference of a value.
ghost use Rattle.std.specs.Prelude.{◌≡◌, ◌+◌, ◌*◌, ◌≤◌, IfOk, map};
ghost use Rattle.openapi_node.specs.Tree.{size_of};
ghost use Rattle.openapi_faults.specs.Adds.{Adds};
ghost use Rattle.openapi_faults.specs.Meaning.{kind_of};
ghost use Rattle.openapi_faults.specs.References.{reference_of, references_at, references_in};

use crate::kind::{Inside, Kind};
use crate::step::{Step, owned_place};
use crate::visit::visited;
use crate::walk::Visitor;
use openapi_node::{Node, PlaceStep, Steps, View};
use std::alloc::{AllocError, Global};

/// A Reference Object (OpenAPI 3.0.3, section 4.7.23) at a location where one is allowed.
#[derive(Debug, Drop, PartialEq)]
pub struct Reference {
    /// The location of the object.
    pub place: Vec<PlaceStep>,
    /// The string under `$ref`. It should be a URI reference (RFC 3986), which is not checked.
    pub text: String,
    /// The kind of the value that the reference replaces.
    pub target: Kind,
}

/// Returns every reference in a value of a kind: each object with a string under `$ref` where a reference is allowed.
///
/// The references are in the order of the field tables, which is not that of the text. The other members of such an
/// object are not visited.
///
/// # Errors
///
/// Returns [`AllocError`] if an allocation fails.
pub fn references(
    alloc: Global,
    kind: Kind,
    node: &Node,
    steps: &mut Steps,
) -> Result<Vec<Reference>, AllocError>
    ensures references { IfOk result (λ v. map reference_of v.items ≡ references_in (kind_of kind) node.now) }
    ensures rises { steps.old ≤ steps.new }
    ensures count { steps.new ≤ steps.old + 3 * size_of node.now }
{
    let visitor = ReferenceFinder {
        alloc,
        found: Vec::new(alloc),
    };
    let ReferenceFinder { alloc: _, found } = visited(alloc, visitor, kind, node, steps)?;
    Ok(found)
}

/// The references that were found so far.
#[derive(Drop)]
struct ReferenceFinder {
    alloc: Global,
    found: Vec<Reference>,
}

impl Visitor for ReferenceFinder {
    ghost Takes = { λ old a new. Adds reference_of old.found.items new.found.items (references_at a) };

    fn visit(
        &mut self,
        place: &[Step<'_>],
        kind: Kind,
        _view: &View<'_>,
        reference: Option<&str>,
    ) -> Result<(), AllocError> {
        let Some(text) = reference else {
            return Ok(());
        };
        let Inside::Item(target) = kind.inside() else {
            return Ok(());
        };
        let place = owned_place(self.alloc, place)?;
        let text = String::from_str(self.alloc, text)?;
        self.found.push(Reference {
            place,
            text,
            target,
        })?;
        Ok(())
    }
}
