//! The members of values that are to be objects, and entries that are put by what was read of their values.
ghost use Rattle.std.specs.Prelude.{◌≡◌, None};
ghost use Rattle.openapi_map.specs.Entries.{get};
ghost use Rattle.openapi_node.specs.Tree.{Tree, members_of};
ghost use Rattle.openapi_node.specs.View.{shown};
ghost use Rattle.openapi_tables.specs.Form.{Form};
ghost use Rattle.openapi_tables.specs.Kind.{Kind};
ghost use Rattle.openapi_fields.specs.Returned.{ReadAs};
ghost use Rattle.openapi_fields.specs.Reading.{MembersShown, MembersShownAt, PutRead};

use crate::{at_name, put};
use openapi_node::{
    Cause, Expected, Fault, Members, Node, OrderedMap, Result, Steps, View, find_member,
};
use std::alloc::Global;

/// Returns the members of a value that has to be an object and was accessed already.
///
/// # Errors
///
/// Returns `Cause::WrongKind` with the empty location if the value is no object.
pub fn members_shown<'a>(alloc: Global, view: &View<'a>) -> Result<&'a Members>
    ensures { MembersShown result (shown view.now) }
{
    match view {
        View::Object(members) => Ok(members),
        _ => Err(Fault::new(alloc, Cause::WrongKind(Expected::Object))),
    }
}

/// Returns the members of the object at a name, or `None` if the name is missing. It accesses the value once.
///
/// # Errors
///
/// Returns `Cause::WrongKind` with the name as location if the value is no object. An allocation failure has
/// `Cause::Memory` and the empty location.
pub fn members_at<'a>(
    alloc: Global,
    members: &'a Members,
    name: &str,
    steps: &mut Steps,
) -> Result<Option<&'a Members>>
    ensures { MembersShownAt result name.now (members_of members.now) steps.old steps.new }
{
    let Some(node) = find_member(members, name) else {
        return Ok(None);
    };
    let view = node.open(steps);
    match at_name(alloc, name, members_shown(alloc, &view)) {
        Ok(entries) => Ok(Some(entries)),
        Err(fault) => Err(fault),
    }
}

/// Appends what was read of an entry, at a name that is not in the map. It has a stack frame of its own, so that
/// mutually recursive functions have no space for the copies that are made of a large value here.
///
/// # Errors
///
/// Returns the fault of `read`, with the name before its location. An allocation failure has `Cause::Memory` and the
/// empty location.
#[inline(never)]
pub fn put_read<T: Drop>(
    alloc: Global,
    values: &mut OrderedMap<T>,
    name: &str,
    read: Result<T>,
) -> Result<()>
    requires { get name.now values.old ≡ None }
    ensures { (view : T → Form) (k : Kind) (u : Tree) → ReadAs view read k u
        → PutRead view k u name.now result values.old values.new }
{
    match at_name(alloc, name, read) {
        Ok(value) => put(alloc, values, name, value),
        Err(fault) => Err(fault),
    }
}
