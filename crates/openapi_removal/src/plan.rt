//! What is to be made of each member of an object.
ghost use Rattle.std.specs.Prelude.{◌≡◌, ◌&&◌, not, ℕ, cond, List, [], IfOk, length, map};
ghost use Rattle.std.specs.Str.{bytes_eq};
ghost use Rattle.json.specs.Value.{members_view};
ghost use Rattle.openapi_faults.specs.Without.{has_root};
ghost use Rattle.openapi_removal.specs.Below.{at_name, places_of};
ghost use Rattle.openapi_removal.specs.Plans.{plan_by, planned, plans};

use crate::below::{ByName, by_name, has_root};
use json::Value;
use openapi_node::PlaceStep;
use std::alloc::{AllocError, Global};

/// What is to be made of a member: `None` if it is removed, and else the locations of the members that are removed from its value, as
/// they are seen from there.
pub(crate) type Plan<'p> = Option<Vec<&'p [PlaceStep]>>;

/// Returns the plan of each member of an object from which the members at some locations are removed.
///
/// Locations lead to the last member of a name. If that is removed, the others of its name are too: else one of them would count.
pub(crate) fn plans_of<'p>(
    alloc: Global,
    members: &Vec<(&str, Value<'_>)>,
    places: &[&'p [PlaceStep]],
) -> Result<Vec<Plan<'p>>, AllocError>
    ensures plans { IfOk result (λ v. map planned v.items ≡ plans (places_of places.now) (members_view members.now.items)) }
    ensures length { IfOk result (λ v. length v.items ≡ length members.now.items) }
{
    let mut groups = by_name(alloc, places)?;
    let mut plans = Vec::with_capacity(alloc, members.len())?;
    let mut left = members.len();
    while left > 0 {
        left -= 1;
        let plan = take_plan(alloc, &mut groups, members[left].0);
        plans.push(plan)?;
    }
    plans.reverse();
    Ok(plans)
}

/// Returns the plan of the last member of a name that has none yet. If it stays, no location is left for the members before it.
fn take_plan<'p>(alloc: Global, groups: &mut ByName<'p>, name: &str) -> Plan<'p>
    ensures plan { planned result ≡ plan_by (at_name groups.old name.now) }
    ensures left { (n : List ℕ) → at_name groups.new n
        ≡ cond (bytes_eq name.now n && not (has_root (at_name groups.old n))) [] (at_name groups.old n) }
{
    if is_removed(groups, name) {
        return None;
    }
    Some(groups.remove(name).unwrap_or(Vec::new(alloc)))
}

/// Returns whether the members of a name are removed.
fn is_removed(groups: &ByName<'_>, name: &str) -> bool
    ensures { result ≡ has_root (at_name groups.now name.now) }
{
    match groups.get(name) {
        Some(inside) => has_root(inside.as_slice()),
        None => false,
    }
}
