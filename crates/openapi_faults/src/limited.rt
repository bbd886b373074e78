//! Every location at which a whole number within limits is expected.
ghost use Rattle.std.specs.Prelude.{◌≡◌, ◌+◌, ◌*◌, ◌≤◌, IfOk, is_some, map};
ghost use Rattle.openapi_node.specs.Tree.{size_of};
ghost use Rattle.openapi_faults.specs.Adds.{Adds};
ghost use Rattle.openapi_faults.specs.Limited.{is_bounded, is_limited, limited_at, limited_in, limited_place};
ghost use Rattle.openapi_faults.specs.Meaning as meaning;
ghost use Rattle.openapi_faults.specs.Meaning.{kind_of};

use crate::kind::{Kind, Limits};
use crate::step::{Step, owned_place};
use crate::visit::visited;
use crate::walk::Visitor;
use openapi_node::{Node, PlaceStep, Steps, View};
use std::alloc::{AllocError, Global};

/// A location at which a whole number within limits is expected: a length, a count or a limit of an integer.
#[derive(Debug, Drop, PartialEq)]
pub struct LimitedNumber {
    /// The location.
    pub place: Vec<PlaceStep>,
    /// The numbers that are allowed there.
    pub limits: Limits,
}

/// Returns every location in a value of a kind at which a whole number within limits is expected, whatever is there.
///
/// The locations are in the order of the field tables, which is not that of the text.
///
/// # Errors
///
/// Returns [`AllocError`] if an allocation fails.
pub fn limited_numbers(
    alloc: Global,
    kind: Kind,
    node: &Node,
    steps: &mut Steps,
) -> Result<Vec<LimitedNumber>, AllocError>
    ensures places { IfOk result (λ v. map limited_place v.items ≡ limited_in (kind_of kind) node.now) }
    ensures rises { steps.old ≤ steps.new }
    ensures count { steps.new ≤ steps.old + 3 * size_of node.now }
{
    let visitor = LimitedFinder {
        alloc,
        found: Vec::new(alloc),
    };
    let LimitedFinder { alloc: _, found } = visited(alloc, visitor, kind, node, steps)?;
    Ok(found)
}

/// The locations that were found so far.
#[derive(Drop)]
struct LimitedFinder {
    alloc: Global,
    found: Vec<LimitedNumber>,
}

impl Visitor for LimitedFinder {
    ghost Takes = { λ old a new. Adds limited_place old.found.items new.found.items (limited_at a) };

    fn visit(
        &mut self,
        place: &[Step<'_>],
        kind: Kind,
        _view: &View<'_>,
        _reference: Option<&str>,
    ) -> Result<(), AllocError> {
        let Some(limits) = limits_in(kind) else {
            return Ok(());
        };
        let place = owned_place(self.alloc, place)?;
        self.found.push(LimitedNumber { place, limits })?;
        Ok(())
    }
}

/// Returns the limits of the numbers that a kind requires, if it requires numbers within limits.
fn limits_in(kind: Kind) -> Option<Limits>
    ensures { is_some result ≡ is_limited (kind_of kind) }
{
    match kind {
        Kind::Number(limits) => bounded(limits),
        Kind::NumberOrNull(limits) => bounded(limits),
        _ => None,
    }
}

/// Returns limits, unless all whole numbers are within them.
fn bounded(limits: Limits) -> Option<Limits>
    ensures { is_some result ≡ is_bounded (meaning.limits_of limits) }
{
    match limits {
        Limits::Unlimited => None,
        Limits::Sizes | Limits::Signed => Some(limits),
    }
}
