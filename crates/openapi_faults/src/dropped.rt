//! Every member that reading drops.
ghost use Rattle.std.specs.Prelude.{◌≡◌, ◌+◌, ◌*◌, ◌≤◌, [], ◌∷◌, ◌++◌, IfOk, OnOk, is_some, map};
ghost use Rattle.std.specs.List.{list_any};
ghost use Rattle.openapi_node.specs.Place.{named};
ghost use Rattle.openapi_node.specs.Tree.{members_of, object, size_of};
ghost use Rattle.openapi_tables.specs.Kind.{takes};
ghost use Rattle.openapi_tables.specs.Tree.{members_list};
ghost use Rattle.openapi_faults.specs.Adds.{Adds};
ghost use Rattle.openapi_faults.specs.Dropped as meaning;
ghost use Rattle.openapi_faults.specs.Dropped.{dropped_at, dropped_if, dropped_in, dropped_of, drops, tag_of_table};
ghost use Rattle.openapi_faults.specs.Meaning.{kind_of, row_of, table_of};
ghost use Rattle.openapi_faults.specs.Walk.{reference_text, step_of};

use crate::kind::{Inside, Kind};
use crate::members::{first_of_two, is_among, is_same};
use crate::row::Row;
use crate::step::{Step, owned_place};
use crate::table::TableName;
use crate::visit::visited;
use crate::walk::Visitor;
use openapi_node::{Members, Node, PlaceStep, Steps, View};
use std::alloc::{AllocError, Global};

/// Why a member is dropped.
#[derive(Clone, Copy, Debug, PartialEq)]
pub enum DropReason {
    /// The object has no field of that name, and the name is no extension.
    UnknownMember,
    /// The object has both of two members of which the first in the object decides, and this is the second.
    SecondOfTwo,
    /// The object is a Reference Object (OpenAPI 3.0.3, section 4.7.23), which has no member but `$ref`.
    BesideReference,
}

/// A member that reading drops.
#[derive(Debug, Drop, PartialEq)]
pub struct Dropped {
    /// The location of the member, which ends with its name.
    pub place: Vec<PlaceStep>,
    /// Why it is dropped.
    pub why: DropReason,
}

/// Returns every member that reading drops from a value of a kind.
///
/// The objects are in the order of the field tables, and the members of one object in its own order. An object whose
/// tag is missing or unknown has no field table, so none of its members is returned.
///
/// # Errors
///
/// Returns [`AllocError`] if an allocation fails.
pub fn dropped_members(
    alloc: Global,
    kind: Kind,
    node: &Node,
    steps: &mut Steps,
) -> Result<Vec<Dropped>, AllocError>
    ensures dropped { IfOk result (λ v. map dropped_of v.items ≡ dropped_in (kind_of kind) node.now) }
    ensures rises { steps.old ≤ steps.new }
    ensures count { steps.new ≤ steps.old + 3 * size_of node.now }
{
    let visitor = DroppedFinder {
        alloc,
        found: Vec::new(alloc),
    };
    let DroppedFinder { alloc: _, found } = visited(alloc, visitor, kind, node, steps)?;
    Ok(found)
}

/// The members that were found so far.
#[derive(Drop)]
struct DroppedFinder {
    alloc: Global,
    found: Vec<Dropped>,
}

impl Visitor for DroppedFinder {
    ghost Takes = { λ old a new. Adds dropped_of old.found.items new.found.items (dropped_at a) };

    fn visit(
        &mut self,
        place: &[Step<'_>],
        kind: Kind,
        view: &View<'_>,
        reference: Option<&str>,
    ) -> Result<(), AllocError> {
        match view {
            View::Object(members) => self.report_all(place, kind, reference.is_some(), members),
            _ => Ok(()),
        }
    }
}

impl DroppedFinder {
    /// Appends the members of an object that a kind drops.
    fn report_all(
        &mut self,
        place: &[Step<'_>],
        kind: Kind,
        is_reference: bool,
        members: &Members,
    ) -> Result<(), AllocError>
        requires { is_reference ≡ is_some (reference_text (kind_of kind) (object (members_of members.now))) }
        ensures { OnOk result (Adds dropped_of self.old.found.items self.new.found.items
            (drops (map step_of place.now) (kind_of kind) (object (members_of members.now)))) }
    {
        for i in 0..members.len() {
            let (name, _) = members.entry_at(i);
            self.report(place, name, why_dropped(kind, is_reference, members, name))?;
        }
        Ok(())
    }

    /// Appends a member of an object at a location, if there is a reason to drop it.
    fn report(
        &mut self,
        place: &[Step<'_>],
        name: &str,
        why: Option<DropReason>,
    ) -> Result<(), AllocError>
        ensures { OnOk result (Adds dropped_of self.old.found.items self.new.found.items
            (dropped_if (map step_of place.now ++ (named name.now ∷ [])) why)) }
    {
        let Some(why) = why else {
            return Ok(());
        };
        let mut place = owned_place(self.alloc, place)?;
        let name = String::from_str(self.alloc, name)?;
        place.push(PlaceStep::Name(name))?;
        self.found.push(Dropped { place, why })?;
        Ok(())
    }
}

/// Returns why a kind drops the member of a name, if it does.
fn why_dropped(kind: Kind, is_reference: bool, members: &Members, name: &str) -> Option<DropReason>
    requires { is_reference ≡ is_some (reference_text (kind_of kind) (object (members_of members.now))) }
    ensures { result ≡ meaning.why_dropped (kind_of kind) (members_of members.now) name.now }
{
    match kind.inside() {
        Inside::Rows(table) => why_lost(table, members, name),
        Inside::SchemaRows => unless_taken(
            is_taken(TableName::SchemaData.rows(), name)
                || is_taken(TableName::AnySchema.rows(), name),
        ),
        Inside::TypeRows => unless_taken(is_taken(TableName::AnySchema.rows(), name)),
        Inside::Item(_) => {
            if is_reference && !is_same("$ref", name) {
                Some(DropReason::BesideReference)
            } else {
                None
            }
        }
        _ => None,
    }
}

/// Returns why an object by a table drops the member of a name, if it does.
fn why_lost(table: TableName, members: &Members, name: &str) -> Option<DropReason>
    ensures { result ≡ meaning.why_lost (table_of table) (members_list (members_of members.now)) name.now }
{
    let rows = table.rows();
    if !is_taken(rows, name) {
        return unless_taken(is_tag(table, name));
    }
    if has_second(rows, members, name) {
        Some(DropReason::SecondOfTwo)
    } else {
        None
    }
}

/// Returns that a name is unknown, unless it is taken.
fn unless_taken(is_taken: bool) -> Option<DropReason>
    ensures { result ≡ meaning.unless_taken is_taken }
{
    if is_taken {
        None
    } else {
        Some(DropReason::UnknownMember)
    }
}

/// Returns whether one of the rows takes the members of a name.
fn is_taken(rows: &[Row], name: &str) -> bool
    ensures { result ≡ meaning.is_taken (map row_of rows.now) name.now }
{
    for row in rows {
        if takes(*row, name) {
            return true;
        }
    }
    false
}

/// Returns whether one of the rows takes one of two names, and the first member that it takes has the other one.
fn has_second(rows: &[Row], members: &Members, name: &str) -> bool
    ensures { result ≡ list_any (meaning.takes_second (members_list (members_of members.now)) name.now) (map row_of rows.now) }
{
    for row in rows {
        if takes_second(*row, members, name) {
            return true;
        }
    }
    false
}

/// Returns whether a row takes one of two names, and the first member that it takes has the other one.
fn takes_second(row: Row, members: &Members, name: &str) -> bool
    ensures { result ≡ meaning.takes_second (members_list (members_of members.now)) name.now (row_of row) }
{
    let Row::Either(first, _, second, _) = row else {
        return false;
    };
    if !takes(row, name) {
        return false;
    }
    match first_of_two(members, first, second) {
        Some((other, _)) => !is_same(other, name),
        None => true,
    }
}

/// Returns whether a row takes the members of a name.
fn takes(row: Row, name: &str) -> bool
    ensures { result ≡ takes (row_of row) name.now }
{
    match row {
        Row::Required(own, _)
        | Row::Optional(own, _)
        | Row::Nullable(own, _)
        | Row::Listed(own, _)
        | Row::Flag(own)
        | Row::Styled(own, _, _)
        | Row::Format(own, _) => is_same(own, name),
        Row::Either(first, _, second, _) => is_same(first, name) || is_same(second, name),
        Row::Names(class, _) => is_among(Some(class), name),
    }
}

/// Returns whether a name is that of the tag by whose text a table is found.
fn is_tag(table: TableName, name: &str) -> bool
    ensures { result ≡ meaning.is_tag (tag_of_table (table_of table)) name.now }
{
    match table {
        TableName::QueryParameter
        | TableName::HeaderParameter
        | TableName::PathParameter
        | TableName::CookieParameter => is_same("in", name),
        TableName::APIKeyScheme
        | TableName::HTTPScheme
        | TableName::OAuth2Scheme
        | TableName::OpenIDConnectScheme
        | TableName::StringType
        | TableName::NumberType
        | TableName::IntegerType
        | TableName::ObjectType
        | TableName::ArrayType
        | TableName::BooleanType => is_same("type", name),
        _ => false,
    }
}
