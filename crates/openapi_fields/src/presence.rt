//! Members that exist and are not null.
ghost use Rattle.openapi_node.specs.Tree.{members_of};
ghost use Rattle.openapi_fields.specs.Presence.{AtMember, ViewFound};

use crate::place::at_name;
use openapi_node::{Members, Node, Result, Steps, View, find_member};
use std::alloc::Global;

/// Returns a view of the member of a name, or `None` if it is missing or null. It accesses the member once.
pub fn present_view<'a>(members: &'a Members, name: &str, steps: &mut Steps) -> Option<View<'a>>
    ensures { ViewFound result name.now (members_of members.now) steps.old steps.new }
{
    let Some(node) = find_member(members, name) else {
        return None;
    };
    let view = node.open(steps);
    match view {
        View::Null => None,
        _ => Some(view),
    }
}

/// Returns what was read of the member of a name, with a location from the object.
///
/// # Errors
///
/// Returns the fault of `read`, with the name before its location. An allocation failure has `Cause::Memory` and the
/// empty location.
pub fn as_member<T>(alloc: Global, name: &str, read: Result<T>) -> Result<Option<T>>
    ensures { AtMember name.now read result }
{
    match at_name(alloc, name, read) {
        Ok(value) => Ok(Some(value)),
        Err(fault) => Err(fault),
    }
}
