//! References, and the items that they replace.
ghost use Rattle.std.proofs.Common.{refl};
ghost use Rattle.std.proofs.lemmas.Bool.{and_from};
ghost use Rattle.std.specs.Prelude.{◌≡◌, ◌+◌, ◌≤◌, ◌*◌, false, option_map, string_bytes, IfErr, IfOk};
ghost use Rattle.openapi_node.specs.Fault.{IsMemory};
ghost use Rattle.openapi_node.specs.View.{shown};
ghost use Rattle.openapi_tables.specs.Kind.{ref_to};
ghost use Rattle.openapi_values.specs.Reference.{reference_form};
ghost use Rattle.openapi_fields.specs.References.{reference_in, reference_tree};
ghost use Rattle.openapi_fields.specs.Returned.{RisesBy};

use crate::from_node::FromNode;
use crate::put_rows::put;
use crate::to_node::ToNode;
use crate::words::write_text;
use openapi_node::{Fault, Node, OrderedMap, Result, Steps, View, find_member};
use openapi_values::ReferenceOr;
use std::alloc::Global;

/// The name under which a reference holds its text.
const REF: &str = "$ref";

/// An object that a reference may replace.
pub trait Referable: FromNode {
    ghost use Rattle.std.specs.Prelude.{◌≡◌, true};
    ghost use Rattle.openapi_tables.specs.Sound.{under_ref};
    ghost use Rattle.openapi_tables.specs.Tables.{final_tables};

    /// An object that holds no text under `$ref` is written as one that holds none.
    ghost spares_ref: { under_ref final_tables Self.kind ≡ true };
}

/// Returns the text of a reference, if the view shows one: an object with a text under `$ref`, whatever else it has.
fn reference_text<'a>(view: &View<'a>, steps: &mut Steps) -> Option<&'a str>
    ensures text { option_map (λ s. s.now) result ≡ reference_in (shown view.now) }
    ensures count { RisesBy steps.old steps.new 1 }
{
    let View::Object(members) = view else {
        return None;
    };
    let Some(node) = find_member(members, REF) else {
        return None;
    };
    match node.open(steps) {
        View::Text(text) => Some(text),
        _ => None,
    }
}

/// Writes a reference: an object with the text under `$ref` and nothing else.
///
/// # Errors
///
/// Returns [`Fault::memory`] if an allocation fails.
pub fn write_reference(alloc: Global, reference: &str) -> Result<Node>
    ensures ok { IfOk result (λ node. node ≡ reference_tree reference.now) }
    ensures err { IfErr result IsMemory }
{
    let text = write_text(alloc, reference)?;
    let mut out = OrderedMap::new(alloc);
    put(alloc, &mut out, REF, text)?;
    Ok(Node::object(out))
}

/// Returns a copy of the text of a reference, if the view shows a reference.
///
/// # Errors
///
/// Returns [`Fault::memory`] if an allocation fails.
pub fn read_reference(alloc: Global, view: &View<'_>, steps: &mut Steps) -> Result<Option<String>>
    ensures reads { IfOk result (λ o. option_map string_bytes o ≡ reference_in (shown view.now)) }
    ensures err { IfErr result IsMemory }
    ensures count { RisesBy steps.old steps.new 1 }
{
    match reference_text(view, steps) {
        None => Ok(None),
        Some(text) => match String::from_str(alloc, text) {
            Ok(text) => Ok(Some(text)),
            Err(_) => Err(Fault::memory(alloc)),
        },
    }
}

impl<T: Referable> FromNode for ReferenceOr<T> {
    ghost kind = { ref_to T.kind };

    ghost form_of = { reference_form T.form_of };

    fn from_view(alloc: Global, view: &View<'_>, steps: &mut Steps) -> Result<ReferenceOr<T>> {
        match read_reference(alloc, view, steps) {
            Ok(reference) => match reference {
                Some(reference) => Ok(ReferenceOr::Reference { reference }),
                None => match T::from_view(alloc, view, steps) {
                    Ok(item) => Ok(ReferenceOr::Item(item)),
                    Err(fault) => Err(fault),
                },
            },
            Err(fault) => Err(fault),
        }
    }

    ghost well_made = { and_from _ _ T.spares_ref T.well_made };
}

impl<T: ToNode + Referable> ToNode for ReferenceOr<T> {
    ghost use Rattle.openapi_values.specs.declared.reference.ReferenceOr.TheVariants.{Reference, Item};

    fn to_node(&self, alloc: Global) -> Result<Node> {
        match self {
            ReferenceOr::Reference { reference } => write_reference(alloc, reference.as_str()),
            ReferenceOr::Item(item) => item.to_node(alloc),
        }
    }

    ghost there = { elim [ Reference r ↦ refl | Item x ↦ refl ] };
}
