//! The Security Requirement Object.
ghost use Rattle.std.specs.Prelude.{◌≡◌, ◌+◌, ◌≤◌, ◌*◌};
ghost use Rattle.openapi_node.specs.Tree.{size_of};
ghost use Rattle.openapi_tables.specs.Tables.{security_requirement};
ghost use Rattle.openapi_fields.specs.Returned.{ReadAs, Refuses, WrittenAs};
ghost use Rattle.openapi_security.specs.Schemes.{security_requirement_form};

use openapi_fields::{FromNode, ToNode};
use openapi_node::{Node, OrderedMap, Result, Steps};
use std::alloc::Global;

/// The Security Requirement Object (OpenAPI 3.0.3, section 4.7.30): the security schemes that a call needs, each by its
/// name with the scopes that are required. The list is empty for schemes without scopes.
pub type SecurityRequirement = OrderedMap<Vec<String>>;

/// Reads a security requirement.
///
/// # Errors
///
/// Returns a [`Fault`](openapi_node::Fault) with a rule that the value breaks and the location where it does. An
/// allocation failure has [`Cause::Memory`](openapi_node::Cause::Memory) and the empty location.
pub fn security_requirement_from_node(
    alloc: Global,
    node: &Node,
    steps: &mut Steps,
) -> Result<SecurityRequirement>
    ensures reads { ReadAs security_requirement_form result security_requirement node.now }
    ensures refuses { Refuses result security_requirement node.now }
    ensures rises { steps.old + 1 ≤ steps.new }
    ensures count { steps.new ≤ steps.old + 3 * size_of node.now }
{
    SecurityRequirement::from_node(alloc, node, steps)
}

/// Writes a security requirement.
///
/// # Errors
///
/// Returns a [`Fault`](openapi_node::Fault) with [`Cause::Memory`](openapi_node::Cause::Memory) and the empty location
/// if an allocation fails. There is no other error.
pub fn security_requirement_to_node(
    alloc: Global,
    requirement: &SecurityRequirement,
) -> Result<Node>
    ensures { WrittenAs security_requirement (security_requirement_form requirement.now) result }
{
    requirement.to_node(alloc)
}
