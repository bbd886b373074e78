//! Members of an object by name.
ghost use Rattle.std.specs.Prelude.{◌≡◌, ◌<◌, IfSome};
ghost use Rattle.std.specs.Option.{option_copied};
ghost use Rattle.openapi_map.specs.Entries.{get};
ghost use Rattle.openapi_node.specs.Tree.{find, size_of, object, members_of};

use crate::node::Node;
use openapi_map::OrderedMap;

/// Returns the member of an object with that name, or `None` if it has none.
///
/// The member is smaller than the object, which is what a recursion over members needs. This counts no access:
/// [`Node::open`] does.
pub fn find_member<'a>(members: &'a OrderedMap<Node>, name: &str) -> Option<&'a Node>
    ensures found { option_copied result ≡ find name.now (members_of members.now) }
    ensures smaller { IfSome result (λ m. size_of m.now < size_of (object (members_of members.now))) }
{
    members.get(name)
}
