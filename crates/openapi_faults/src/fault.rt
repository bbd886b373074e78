//! Every fault of a value.
ghost use Rattle.std.specs.Prelude.{◌+◌, ◌*◌, ◌≤◌, IfOk, OnOk, map};
ghost use Rattle.openapi_node.specs.Tree.{members_of, size_of};
ghost use Rattle.openapi_node.specs.View.{shown};
ghost use Rattle.openapi_tables.specs.Faults.{causes, row_misses};
ghost use Rattle.openapi_tables.specs.Lists.{each, flat};
ghost use Rattle.openapi_tables.specs.Tables.{final_tables};
ghost use Rattle.openapi_tables.specs.Tree.{members_list};
ghost use Rattle.openapi_faults.specs.Adds.{Adds};
ghost use Rattle.openapi_faults.specs.Meaning.{kind_of, row_of};
ghost use Rattle.openapi_faults.specs.Told.{AreFaults, at, fault_in, given, row_causes, told};
ghost use Rattle.openapi_faults.specs.Walk.{step_of};

use crate::cause::{cause_of, row_cause};
use crate::kind::Kind;
use crate::row::Row;
use crate::step::{Step, owned_place};
use crate::visit::visited;
use crate::walk::Visitor;
use openapi_node::{Cause, Fault, Members, Node, Steps, View};
use std::alloc::{AllocError, Global};

/// Returns every fault of a value of a kind, each with its location, or an empty list if the value conforms.
///
/// The faults are in the order of the field tables, which is not that of the text. The fault of a missing member has
/// the location of the object.
///
/// # Errors
///
/// Returns [`AllocError`] if an allocation fails.
///
/// # Examples
///
/// ```rust
/// // The name is missing, and the description is no string.
/// let node = node_from_json(rt.alloc(), br#"{"description":true}"#)?;
/// let tag = Kind::Object(TableName::Tag);
/// let found = faults(rt.alloc(), tag, &node, &mut Steps::new(&rt))?;
/// assert_eq!(rt; found.len(), 2);
/// ```
pub fn faults(
    alloc: Global,
    kind: Kind,
    node: &Node,
    steps: &mut Steps,
) -> Result<Vec<Fault>, AllocError>
    ensures told { IfOk result (λ v. AreFaults v.items (told final_tables (kind_of kind) node.now)) }
    ensures rises { steps.old ≤ steps.new }
    ensures count { steps.new ≤ steps.old + 3 * size_of node.now }
{
    let visitor = Finder {
        alloc,
        found: Vec::new(alloc),
    };
    let Finder { alloc: _, found } = visited(alloc, visitor, kind, node, steps)?;
    Ok(found)
}

/// The faults that were found so far.
#[derive(Drop)]
struct Finder {
    alloc: Global,
    found: Vec<Fault>,
}

impl Visitor for Finder {
    ghost Takes = { λ old a new. Adds fault_in old.found.items new.found.items (at a.place (causes final_tables a.kind a.tree)) };

    fn visit(
        &mut self,
        place: &[Step<'_>],
        kind: Kind,
        view: &View<'_>,
        _reference: Option<&str>,
    ) -> Result<(), AllocError> {
        self.report(place, cause_of(kind, view))?;
        self.report_missing(place, kind, view)
    }
}

impl Finder {
    /// Appends a fault at a location, if there is a cause.
    fn report(&mut self, place: &[Step<'_>], cause: Option<Cause>) -> Result<(), AllocError>
        ensures { OnOk result (Adds fault_in self.old.found.items self.new.found.items (given (map step_of place.now) cause)) }
    {
        let Some(cause) = cause else {
            return Ok(());
        };
        let place = owned_place(self.alloc, place)?;
        self.found.push(Fault { place, cause })?;
        Ok(())
    }

    /// Appends a fault for each member that a table requires and an object lacks.
    fn report_missing(
        &mut self,
        place: &[Step<'_>],
        kind: Kind,
        view: &View<'_>,
    ) -> Result<(), AllocError>
        ensures { OnOk result (Adds fault_in self.old.found.items self.new.found.items
            (at (map step_of place.now) (row_causes (kind_of kind) (shown view.now)))) }
    {
        let Kind::Object(table) = kind else {
            return Ok(());
        };
        let View::Object(members) = view else {
            return Ok(());
        };
        self.report_rows(place, table.rows(), members)
    }

    /// Appends a fault for each member that a row requires and an object lacks.
    fn report_rows(
        &mut self,
        place: &[Step<'_>],
        rows: &[Row],
        members: &Members,
    ) -> Result<(), AllocError>
        ensures { OnOk result (Adds fault_in self.old.found.items self.new.found.items
            (at (map step_of place.now) (flat (each (row_misses (members_list (members_of members.now))) (map row_of rows.now))))) }
    {
        for row in rows {
            self.report(place, row_cause(*row, members))?;
        }
        Ok(())
    }
}
