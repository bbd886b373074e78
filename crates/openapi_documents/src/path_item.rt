//! The Path Item Object.
ghost use Rattle.std.proofs.Common.{refl};
ghost use Rattle.std.specs.Prelude.{◌≡◌, ◌+◌, ◌≤◌, ◌*◌, [], None};
ghost use Rattle.openapi_node.specs.Tree.{size_of};
ghost use Rattle.openapi_tables.specs.Kind.{by, path_item, ref_to};
ghost use Rattle.openapi_values.specs.Reference.{reference_form};
ghost use Rattle.openapi_fields.specs.Returned.{ReadAs, Refuses, WrittenAs};
ghost use Rattle.openapi_fields.proofs.Spared.{path_item_spares};
ghost use Rattle.openapi_documents.specs.Fields.{path_item_fields};
ghost use Rattle.openapi_documents.specs.OperationForms.{path_item_form};

use crate::operation::Operation;
use crate::read::read_path_item;
use crate::write::write_path_item;
use openapi_fields::{FromNode, Object, Referable, ToNode};
use openapi_metadata::Server;
use openapi_node::{Node, OrderedMap, Result, Steps, View};
use openapi_parameters::Parameter;
use openapi_values::ReferenceOr;
use std::alloc::Global;

/// The Path Item Object (OpenAPI 3.0.3, section 4.7.9): the operations under one path, by their HTTP methods.
#[cycle(operations)]
#[derive(Clone, Debug, PartialEq, Drop)]
pub struct PathItem {
    /// A short summary of all operations under the path.
    pub summary: Option<String>,
    /// A description of all operations under the path, in CommonMark.
    pub description: Option<String>,
    /// The operation of GET.
    pub get: Option<Operation>,
    /// The operation of PUT.
    pub put: Option<Operation>,
    /// The operation of POST.
    pub post: Option<Operation>,
    /// The operation of DELETE.
    pub delete: Option<Operation>,
    /// The operation of OPTIONS.
    pub options: Option<Operation>,
    /// The operation of HEAD.
    pub head: Option<Operation>,
    /// The operation of PATCH.
    pub patch: Option<Operation>,
    /// The operation of TRACE.
    pub trace: Option<Operation>,
    /// The servers of the operations under the path, which replace those of the document.
    pub servers: Vec<Server>,
    /// The parameters of all operations under the path, or references to some.
    pub parameters: Vec<ReferenceOr<Parameter>>,
    /// Extensions: the members whose names begin with `x-`, in their order.
    pub extensions: OrderedMap<Node>,
}

impl PathItem {
    ghost use Rattle.openapi_documents.specs.declared.path_item.PathItem.{out-PathItem};

    /// Creates a path item without operations; every field is `None` or empty.
    pub fn new(alloc: Global) -> PathItem
        ensures summary { (out-PathItem result).summary ≡ None }
        ensures description { (out-PathItem result).description ≡ None }
        ensures get { (out-PathItem result).get ≡ None }
        ensures put { (out-PathItem result).put ≡ None }
        ensures post { (out-PathItem result).post ≡ None }
        ensures delete { (out-PathItem result).delete ≡ None }
        ensures options { (out-PathItem result).options ≡ None }
        ensures head { (out-PathItem result).head ≡ None }
        ensures patch { (out-PathItem result).patch ≡ None }
        ensures trace { (out-PathItem result).trace ≡ None }
        ensures servers { (out-PathItem result).servers.items ≡ [] }
        ensures parameters { (out-PathItem result).parameters.items ≡ [] }
        ensures extensions { (out-PathItem result).extensions ≡ [] }
    {
        PathItem {
            summary: None,
            description: None,
            get: None,
            put: None,
            post: None,
            delete: None,
            options: None,
            head: None,
            patch: None,
            trace: None,
            servers: Vec::new(alloc),
            parameters: Vec::new(alloc),
            extensions: OrderedMap::new(alloc),
        }
    }
}

impl Object for PathItem {
    ghost table = { path_item };

    ghost rows_of = { path_item_fields };
}

impl FromNode for PathItem {
    ghost kind = { by path_item };

    ghost form_of = { path_item_form };

    fn from_view(alloc: Global, view: &View<'_>, steps: &mut Steps) -> Result<PathItem> {
        read_path_item(alloc, view, steps)
    }

    ghost well_made = { refl };
}

impl ToNode for PathItem {
    fn to_node(&self, alloc: Global) -> Result<Node> {
        write_path_item(alloc, self)
    }

    ghost there = { λ x. refl };
}

impl Referable for PathItem {
    ghost spares_ref = { path_item_spares };
}

/// Reads a path item or a reference to one.
///
/// # Errors
///
/// Returns a [`Fault`](openapi_node::Fault) with a rule that the value breaks and the location where it does. An
/// allocation failure has [`Cause::Memory`](openapi_node::Cause::Memory) and the empty location.
pub fn path_item_ref_from_node(
    alloc: Global,
    node: &Node,
    steps: &mut Steps,
) -> Result<ReferenceOr<PathItem>>
    ensures reads { ReadAs (reference_form path_item_form) result (ref_to (by path_item)) node.now }
    ensures refuses { Refuses result (ref_to (by path_item)) node.now }
    ensures rises { steps.old + 1 ≤ steps.new }
    ensures count { steps.new ≤ steps.old + 3 * size_of node.now }
{
    ReferenceOr::from_node(alloc, node, steps)
}

/// Writes a path item or a reference to one.
///
/// # Errors
///
/// Returns a [`Fault`](openapi_node::Fault) with [`Cause::NameNotWritable`](openapi_node::Cause::NameNotWritable) at a
/// name or a status code that would not be read again, such as an extension without `x-`. An allocation failure has
/// [`Cause::Memory`](openapi_node::Cause::Memory) and the empty location.
pub fn path_item_ref_to_node(alloc: Global, value: &ReferenceOr<PathItem>) -> Result<Node>
    ensures { WrittenAs (ref_to (by path_item)) (reference_form path_item_form value.now) result }
{
    value.to_node(alloc)
}
