//! Formats: texts that may be a known word.
ghost use Rattle.std.proofs.Common.{refl};
ghost use Rattle.std.specs.Prelude.{◌≡◌, ◌+◌, ◌≤◌, ◌*◌, true, false};
ghost use Rattle.openapi_tables.specs.Kind.{format};
ghost use Rattle.openapi_values.specs.VariantOr.{variant_form, variant_or_empty_form};

use crate::from_node::FromNode;
use crate::to_node::ToNode;
use crate::words::write_text;
use openapi_node::{Cause, Expected, Fault, Node, Result, Steps, View};
use openapi_values::{VariantOrUnknown, VariantOrUnknownOrEmpty, Word};
use std::alloc::Global;

impl<T: Word + 'static> FromNode for VariantOrUnknown<T> {
    ghost kind = { format T.words false };

    ghost form_of = { variant_form T.word_of };

    fn from_view(
        alloc: Global,
        view: &View<'_>,
        _steps: &mut Steps,
    ) -> Result<VariantOrUnknown<T>> {
        match view {
            View::Text(text) => match VariantOrUnknown::from_text(alloc, text) {
                Ok(value) => Ok(value),
                Err(_) => Err(Fault::memory(alloc)),
            },
            _ => Err(Fault::new(alloc, Cause::WrongKind(Expected::Text))),
        }
    }

    ghost well_made = { refl };
}

impl<T: Word + 'static> ToNode for VariantOrUnknown<T> {
    ghost use Rattle.openapi_values.specs.declared.variant_or.VariantOrUnknown.TheVariants.{Item, Unknown};

    fn to_node(&self, alloc: Global) -> Result<Node> {
        write_text(alloc, self.as_str())
    }

    ghost there = { elim [ Item x ↦ refl | Unknown s ↦ refl ] };
}

impl<T: Word + 'static> FromNode for VariantOrUnknownOrEmpty<T> {
    ghost kind = { format T.words true };

    ghost form_of = { variant_or_empty_form T.word_of };

    fn from_view(
        alloc: Global,
        view: &View<'_>,
        _steps: &mut Steps,
    ) -> Result<VariantOrUnknownOrEmpty<T>> {
        match view {
            View::Null => Ok(VariantOrUnknownOrEmpty::Empty),
            View::Text(text) => match VariantOrUnknownOrEmpty::from_text(alloc, text) {
                Ok(value) => Ok(value),
                Err(_) => Err(Fault::memory(alloc)),
            },
            _ => Err(Fault::new(alloc, Cause::WrongKind(Expected::TextOrNull))),
        }
    }

    ghost well_made = { refl };
}

/// Where there is no text, null is written.
impl<T: Word + 'static> ToNode for VariantOrUnknownOrEmpty<T> {
    ghost use Rattle.openapi_values.specs.declared.variant_or.VariantOrUnknownOrEmpty.TheVariants as variant;

    fn to_node(&self, alloc: Global) -> Result<Node> {
        match self.as_str() {
            Some(text) => write_text(alloc, text),
            None => Ok(Node::null()),
        }
    }

    ghost there = { elim [ variant.Item x ↦ refl | variant.Unknown s ↦ refl | variant.Empty ↦ refl ] };
}
