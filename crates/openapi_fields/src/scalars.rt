//! Strings, flags and nodes.
ghost use Rattle.std.proofs.Common.{refl};
ghost use Rattle.std.specs.Prelude.{◌≡◌, ◌+◌, ◌≤◌, ◌*◌, true, false};
ghost use Rattle.openapi_tables.specs.Kind.{any_flag, any_text, any_tree};
ghost use Rattle.openapi_tables.specs.Form.{leaf};
ghost use Rattle.openapi_fields.specs.Forms.{flag_form, text_form};

use crate::from_node::FromNode;
use crate::to_node::ToNode;
use openapi_node::{Cause, Expected, Fault, Node, Result, Steps, View, copy_shown};
use std::alloc::Global;

impl FromNode for String {
    ghost kind = { any_text };

    ghost form_of = { text_form };

    fn from_view(alloc: Global, view: &View<'_>, _steps: &mut Steps) -> Result<String> {
        match view {
            View::Text(text) => match String::from_str(alloc, text) {
                Ok(text) => Ok(text),
                Err(_) => Err(Fault::memory(alloc)),
            },
            _ => Err(Fault::new(alloc, Cause::WrongKind(Expected::Text))),
        }
    }

    ghost well_made = { refl };
}

impl ToNode for String {
    fn to_node(&self, alloc: Global) -> Result<Node> {
        match self.clone() {
            Ok(text) => Ok(Node::text(text)),
            Err(_) => Err(Fault::memory(alloc)),
        }
    }

    ghost there = { λ x. refl };
}

impl FromNode for bool {
    ghost kind = { any_flag };

    ghost form_of = { flag_form };

    fn from_view(alloc: Global, view: &View<'_>, _steps: &mut Steps) -> Result<bool> {
        match view {
            View::Flag(value) => Ok(*value),
            _ => Err(Fault::new(alloc, Cause::WrongKind(Expected::Flag))),
        }
    }

    ghost well_made = { refl };
}

impl ToNode for bool {
    fn to_node(&self, _alloc: Global) -> Result<Node> {
        Ok(Node::flag(*self))
    }

    ghost there = { λ x. refl };
}

impl FromNode for Node {
    ghost kind = { any_tree };

    ghost form_of = { leaf };

    fn from_view(alloc: Global, view: &View<'_>, steps: &mut Steps) -> Result<Node> {
        copy_shown(alloc, view, steps)
    }

    ghost well_made = { refl };
}

impl ToNode for Node {
    fn to_node(&self, alloc: Global) -> Result<Node> {
        match self.clone() {
            Ok(node) => Ok(node),
            Err(_) => Err(Fault::memory(alloc)),
        }
    }

    ghost there = { λ x. refl };
}
