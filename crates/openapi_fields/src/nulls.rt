//! Values that may also be null.
ghost use Rattle.std.proofs.Common.{refl};
ghost use Rattle.std.proofs.lemmas.Bool.{and_from};
ghost use Rattle.std.specs.Prelude.{◌≡◌, ◌+◌, ◌≤◌, ◌*◌, Some, None, false};
ghost use Rattle.openapi_tables.specs.Kind.{null_or};
ghost use Rattle.openapi_fields.specs.Forms.{nullable_form};

use crate::from_node::FromNode;
use crate::to_node::ToNode;
use openapi_node::{Cause, Expected, Fault, Node, Result, Steps, View, Whole};
use std::alloc::Global;

/// A type whose value may also be null: a string, a flag or a whole number.
pub trait Nullable: FromNode {
    ghost use Rattle.std.specs.Prelude.{◌≡◌, true};
    ghost use Rattle.openapi_tables.specs.Faults.{word_or_null};
    ghost use Rattle.openapi_tables.specs.Sound as kinds;

    /// Returns what is expected if null is allowed too.
    fn expected() -> Expected
        ensures { result ≡ word_or_null Self.kind };

    /// Null is allowed in place of the kind.
    ghost may_be_null: { kinds.may_be_null Self.kind ≡ true };
}

impl Nullable for String {
    fn expected() -> Expected {
        Expected::TextOrNull
    }

    ghost may_be_null = { refl };
}

impl Nullable for bool {
    fn expected() -> Expected {
        Expected::FlagOrNull
    }

    ghost may_be_null = { refl };
}

impl Nullable for Whole {
    fn expected() -> Expected {
        Expected::WholeOrNull
    }

    ghost may_be_null = { refl };
}

impl Nullable for usize {
    fn expected() -> Expected {
        Expected::WholeOrNull
    }

    ghost may_be_null = { refl };
}

impl Nullable for i64 {
    fn expected() -> Expected {
        Expected::WholeOrNull
    }

    ghost may_be_null = { refl };
}

/// `None` is null.
impl<T: Nullable> FromNode for Option<T> {
    ghost kind = { null_or T.kind };

    ghost form_of = { nullable_form T.form_of };

    fn from_view(alloc: Global, view: &View<'_>, steps: &mut Steps) -> Result<Option<T>> {
        if let View::Null = view {
            return Ok(None);
        }
        match T::from_view(alloc, view, steps) {
            Ok(value) => Ok(Some(value)),
            Err(fault) => match fault.cause {
                Cause::WrongKind(_) => Err(Fault::new(alloc, Cause::WrongKind(T::expected()))),
                _ => Err(fault),
            },
        }
    }

    ghost well_made = { and_from _ _ T.may_be_null T.well_made };
}

/// None is written as null.
impl<T: Nullable + ToNode> ToNode for Option<T> {
    fn to_node(&self, alloc: Global) -> Result<Node> {
        match self {
            None => Ok(Node::null()),
            Some(value) => value.to_node(alloc),
        }
    }

    ghost there = { elim [ None ↦ refl | Some x ↦ T.there x ] };
}
