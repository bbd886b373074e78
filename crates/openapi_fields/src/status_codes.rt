//! Status codes that are a value of their own.
ghost use Rattle.std.proofs.Common.{refl};
ghost use Rattle.std.specs.Prelude.{◌≡◌, ◌+◌, ◌≤◌, ◌*◌, true, false};
ghost use Rattle.openapi_tables.specs.Kind.{status_code};
ghost use Rattle.openapi_values.specs.StatusCode.{status_code_form};

use crate::from_node::FromNode;
use crate::to_node::ToNode;
use openapi_node::{Cause, Expected, Fault, Node, Result, Steps, View};
use openapi_values::StatusCode;
use std::alloc::Global;
use std::str::FromStr;

impl FromNode for StatusCode {
    ghost kind = { status_code };

    ghost form_of = { status_code_form };

    fn from_view(alloc: Global, view: &View<'_>, _steps: &mut Steps) -> Result<StatusCode> {
        match view {
            View::Text(text) => match StatusCode::from_str(text) {
                Ok(code) => Ok(code),
                Err(()) => Err(Fault::new(alloc, Cause::NotAllowed)),
            },
            View::Whole(number) => match StatusCode::try_from(*number) {
                Ok(code) => Ok(code),
                Err(()) => Err(Fault::new(alloc, Cause::NotAllowed)),
            },
            _ => Err(Fault::new(alloc, Cause::WrongKind(Expected::TextOrWhole))),
        }
    }

    ghost well_made = { refl };
}

impl ToNode for StatusCode {
    fn to_node(&self, alloc: Global) -> Result<Node> {
        let Ok(text) = format!(in alloc; "{self}") else {
            return Err(Fault::memory(alloc));
        };
        if !self.is_writable() {
            return Err(Fault::new(alloc, Cause::NameNotWritable).at_name(alloc, text.as_str()));
        }
        Ok(Node::text(text))
    }

    ghost there = { λ x. refl };
}
