//! Nodes: JSON values that are opened by counted accesses.
ghost use Rattle.std.specs.Prelude.{◌≡◌, ◌+◌, ◌↔◌, true, IsTrue, string_bytes};
ghost use Rattle.std.specs.Option.{option_copied, option_map};
ghost use Rattle.openapi_node.specs.Tree.{null, flag, whole, text, list, object, items_of, members_of};
ghost use Rattle.openapi_node.specs.Tree.{flag_in, whole_in, text_in, items_in, members_in};
ghost use Rattle.openapi_node.specs.Named.{well_named};
ghost use Rattle.openapi_node.specs.View.{shown};

use crate::steps::Steps;
use crate::whole::Whole;
use openapi_map::OrderedMap;
use std::marker::Model;

/// A JSON value (RFC 8259) whose numbers are whole.
///
/// It is `null`, a flag, a whole number, a string, an array of nodes, or an object. The members of an object have an
/// order and distinct names. Contracts see a node as a value of the type `Tree`. Its invariant is that no object in it,
/// at any depth, has a name twice.
///
/// Two nodes are equal if they are the same JSON value, whatever the order of the members of their objects. `{:?}`
/// prints a node as `serde_json` prints its `Value`. Comparing, printing and dropping a node counts no accesses.
#[cycle(node)]
#[derive(Drop)]
pub struct Node {
    pub(crate) shape: Shape,
}

#[cycle(node)]
#[derive(Drop)]
pub(crate) enum Shape {
    Null,
    Flag(bool),
    Whole(Whole),
    Text(String),
    List(Vec<Node>),
    Object(OrderedMap<Node>),
}

/// The members of an object: its values by their names, in their order.
pub type Members = OrderedMap<Node>;

/// What a node is and holds, borrowed from it.
#[derive(Clone, Copy)]
pub enum View<'a> {
    /// The literal `null`.
    Null,
    /// The literal `true` or `false`.
    Flag(bool),
    /// A number.
    Whole(Whole),
    /// A string.
    Text(&'a str),
    /// The items of an array, in their order.
    List(&'a [Node]),
    /// The members of an object, in their order.
    Object(&'a OrderedMap<Node>),
}

impl Model for Node {
    ghost use Rattle.openapi_node.specs.Tree.{Tree, size_of, tree_code};

    ghost Value = { Tree };

    ghost coded = { tree_code };

    ghost use Rattle.openapi_node.specs.Shape.{tree_of};

    ghost view = { λ n. tree_of n.shape };

    ghost use Rattle.std.specs.Prelude.{◌≡◌, true};
    ghost use Rattle.openapi_node.specs.Named.{well_named};

    ghost invariant = { λ n. well_named (tree_of n.shape) ≡ true };

    ghost size = { size_of };

    ghost use Rattle.std.proofs.Common.{arith};
    ghost use Rattle.openapi_node.specs.Falls.{shape_falls};

    ghost size_decreases = { λ a h. omega (arith, shape_falls a.shape) };
}

impl Node {
    /// Creates the literal `null`.
    pub fn null() -> Node
        ensures { result ≡ null }
    {
        Node { shape: Shape::Null }
    }

    /// Creates the literal `true` or `false`.
    pub fn flag(value: bool) -> Node
        ensures { result ≡ flag value }
    {
        Node {
            shape: Shape::Flag(value),
        }
    }

    /// Creates a number.
    pub fn whole(value: Whole) -> Node
        ensures { result ≡ whole value }
    {
        Node {
            shape: Shape::Whole(value),
        }
    }

    /// Creates a string.
    pub fn text(value: String) -> Node
        ensures { result ≡ text (string_bytes value) }
    {
        Node {
            shape: Shape::Text(value),
        }
    }

    /// Creates an array of these values, in their order.
    pub fn list(items: Vec<Node>) -> Node
        ensures { result ≡ list (items_of items.items) }
    {
        // No effect at run time: gives the proof that the names in each value differ.
        for item in &items {
            item.names_differ();
        }
        Node {
            shape: Shape::List(items),
        }
    }

    /// Creates an object of these members, in their order.
    pub fn object(members: OrderedMap<Node>) -> Node
        ensures { result ≡ object (members_of members) }
    {
        // No effect at run time, as for a list.
        for i in 0..members.len() {
            members.entry_at(i).1.names_differ();
        }
        Node {
            shape: Shape::Object(members),
        }
    }

    /// States to a proof that no object in the value, at any depth, has two members of one name.
    ///
    /// It has no effect at run time.
    pub fn names_differ(&self)
        ensures { well_named self.now ≡ true }
    {
        let _ = &self.shape;
    }

    /// Returns what the node is and holds, borrowed, and counts one access.
    pub fn open(&self, steps: &mut Steps) -> View<'_>
        ensures shown { shown result ≡ self.now }
        ensures counted { steps.new ≡ steps.old + 1 }
    {
        steps.tick();
        match &self.shape {
            Shape::Null => View::Null,
            Shape::Flag(value) => View::Flag(*value),
            Shape::Whole(value) => View::Whole(*value),
            Shape::Text(value) => View::Text(value.as_str()),
            Shape::List(items) => View::List(items.as_slice()),
            Shape::Object(members) => View::Object(members),
        }
    }

    /// Returns what the node is and holds, borrowed, as [`Node::open`] does, but counts no access for the caller.
    ///
    /// It is for programs and tests, which have the runtime. A reader is passed an allocator and no runtime. So it
    /// can't call this function, and the bound on its accesses counts all of them.
    pub fn view(&self, rt: &HostRuntime) -> View<'_>
        ensures { shown result ≡ self.now }
    {
        self.open(&mut Steps::new(rt))
    }
}

impl<'a> View<'a> {
    /// Returns whether the value is the literal `null`.
    pub fn is_null(&self) -> bool
        ensures { IsTrue result ↔ (shown self.now ≡ null) }
    {
        matches!(self, View::Null)
    }

    /// Returns the flag if the value is `true` or `false`.
    pub fn as_flag(&self) -> Option<bool>
        ensures { result ≡ flag_in (shown self.now) }
    {
        match self {
            View::Flag(value) => Some(*value),
            _ => None,
        }
    }

    /// Returns the number if the value is one.
    pub fn as_whole(&self) -> Option<Whole>
        ensures { result ≡ whole_in (shown self.now) }
    {
        match self {
            View::Whole(value) => Some(*value),
            _ => None,
        }
    }

    /// Returns the text if the value is a string.
    pub fn as_text(&self) -> Option<&'a str>
        ensures { option_copied result ≡ text_in (shown self.now) }
    {
        match self {
            View::Text(value) => Some(*value),
            _ => None,
        }
    }

    /// Returns the items, in their order, if the value is an array.
    pub fn as_list(&self) -> Option<&'a [Node]>
        ensures { option_map (λ ts. items_of ts.now) result ≡ items_in (shown self.now) }
    {
        match self {
            View::List(items) => Some(*items),
            _ => None,
        }
    }

    /// Returns the members, in their order, if the value is an object.
    pub fn as_object(&self) -> Option<&'a OrderedMap<Node>>
        ensures { option_map (λ ms. members_of ms.now) result ≡ members_in (shown self.now) }
    {
        match self {
            View::Object(members) => Some(*members),
            _ => None,
        }
    }
}
