//! Values in boxes.
use crate::from_node::FromNode;
use crate::memory::boxed;
use crate::references::Referable;
use crate::to_node::ToNode;
use openapi_node::{Node, Result, Steps, View};
use std::alloc::Global;

/// A value in a box is read as the value is. If the allocation of the box fails, the fault is that of out of memory.
impl<T: FromNode + Drop> FromNode for Box<T> {
    ghost kind = { T.kind };

    ghost form_of = { λ b. T.form_of b.value };

    fn from_view(alloc: Global, view: &View<'_>, steps: &mut Steps) -> Result<Box<T>> {
        match T::from_view(alloc, view, steps) {
            Ok(value) => boxed(alloc, value),
            Err(fault) => Err(fault),
        }
    }

    ghost well_made = { T.well_made };
}

/// A value in a box is written as the value is.
impl<T: ToNode + Drop> ToNode for Box<T> {
    fn to_node(&self, alloc: Global) -> Result<Node> {
        (**self).to_node(alloc)
    }

    ghost there = { λ b. T.there b.value };
}

impl<T: Referable + Drop> Referable for Box<T> {
    ghost spares_ref = { T.spares_ref };
}
