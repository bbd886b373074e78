//! Whole numbers, within the limits of the types that hold them.
ghost use Rattle.std.proofs.Common.{refl};
ghost use Rattle.std.specs.Prelude.{◌≡◌, ◌+◌, ◌≤◌, ◌*◌, true, false};
ghost use Rattle.openapi_tables.specs.Kind.{number, unlimited, sizes, signed};
ghost use Rattle.openapi_fields.specs.Forms.{number_form, size_form};

use crate::from_node::FromNode;
use crate::to_node::ToNode;
use openapi_node::{Cause, Expected, Fault, Node, Result, Steps, View, Whole};
use std::alloc::Global;

impl FromNode for Whole {
    ghost kind = { number unlimited };

    ghost form_of = { number_form };

    fn from_view(alloc: Global, view: &View<'_>, _steps: &mut Steps) -> Result<Whole> {
        match view {
            View::Whole(number) => Ok(*number),
            _ => Err(Fault::new(alloc, Cause::WrongKind(Expected::Whole))),
        }
    }

    ghost well_made = { refl };
}

impl ToNode for Whole {
    fn to_node(&self, _alloc: Global) -> Result<Node> {
        Ok(Node::whole(*self))
    }

    ghost there = { λ x. refl };
}

impl FromNode for usize {
    ghost kind = { number sizes };

    ghost form_of = { size_form };

    fn from_view(alloc: Global, view: &View<'_>, _steps: &mut Steps) -> Result<usize> {
        match view {
            View::Whole(number) => match number.as_u64() {
                Some(number) => Ok(number as usize),
                None => Err(Fault::new(alloc, Cause::NotAllowed)),
            },
            _ => Err(Fault::new(alloc, Cause::WrongKind(Expected::Whole))),
        }
    }

    ghost well_made = { refl };
}

impl ToNode for usize {
    fn to_node(&self, _alloc: Global) -> Result<Node> {
        Ok(Node::whole(Whole::from(*self as u64)))
    }

    ghost there = { λ x. refl };
}

impl FromNode for i64 {
    ghost kind = { number signed };

    ghost form_of = { number_form };

    fn from_view(alloc: Global, view: &View<'_>, _steps: &mut Steps) -> Result<i64> {
        match view {
            View::Whole(number) => match number.as_i64() {
                Some(number) => Ok(number),
                None => Err(Fault::new(alloc, Cause::NotAllowed)),
            },
            _ => Err(Fault::new(alloc, Cause::WrongKind(Expected::Whole))),
        }
    }

    ghost well_made = { refl };
}

impl ToNode for i64 {
    fn to_node(&self, _alloc: Global) -> Result<Node> {
        Ok(Node::whole(Whole::from(*self)))
    }

    ghost there = { λ x. refl };
}
