//! From nodes to compact JSON text.
ghost use Rattle.std.specs.Prelude.{◌≡◌, ◌≤◌, ◌++◌, ◌∷◌, [], IfOk, OnOk, IsFalse, IsTrue, string_bytes};
ghost use Rattle.json.specs.Token.{number};
ghost use Rattle.serde_json.specs.Find.{of_integer};
ghost use Rattle.serde_json.specs.Read.{max_depth};
ghost use Rattle.serde_json.specs.Written.{compact_text, number_text};
ghost use Rattle.openapi_node.specs.Json.{data_of};
ghost use Rattle.openapi_node.specs.Tree.{items_of, members_of, members_size};
ghost use Rattle.openapi_node.specs.Whole.{IsWhole};
ghost use Rattle.openapi_json.specs.Gathered.{Ascends};
ghost use Rattle.openapi_json.specs.Ordered.{IsTreeInOrder};
ghost use Rattle.openapi_json.specs.Reading.{IsTreeOfText};
ghost use Rattle.openapi_json.specs.Writing.{AllFit, AreWhole, arranged, data_in, data_in_order, data_tokens};
ghost use Rattle.openapi_json.specs.Writing.{ItemsAreWhole, items_data_tokens, items_in, lent, MembersAreWhole};
ghost use Rattle.openapi_json.specs.Writing.{members_data_tokens, nesting, standing, tree_by_name};

use json::{Token, Writer};
use openapi_map::OrderedMap;
use openapi_node::{Node, Steps, View, Whole};
use std::alloc::{AllocError, Global};
use std::cmp::Ordering;

/// In which order the members of an object are written.
#[derive(Clone, Copy, Drop)]
pub(crate) enum Order {
    /// By their names.
    ByName,
    /// In their order in the node.
    AsTheyStand,
}

/// Returns the compact JSON text of a node, with the members of each object in the order of their names.
///
/// If its arrays and objects nest at most 127 deep, [`node_from_json`](crate::node_from_json) reads the text as the
/// same node, with its members in that order.
///
/// # Errors
///
/// Returns [`AllocError`] if an allocation fails.
pub fn json_from_node(alloc: Global, node: &Node, steps: &mut Steps) -> Result<String, AllocError>
    ensures text { IfOk result (λ s. string_bytes s ≡ compact_text (data_of node.now)) }
    ensures reads_back { IfOk result (λ s. nesting node.now ≤ max_depth
        → IsTreeOfText (string_bytes s) (tree_by_name node.now)) }
{
    text_of(alloc, node, Order::ByName, steps)
}

/// Returns the compact JSON text of a node, with the members of each object in their order.
///
/// If its arrays and objects nest at most 127 deep, [`node_from_json_in_order`](crate::node_from_json_in_order) reads
/// the text as the same node.
///
/// # Errors
///
/// Returns [`AllocError`] if an allocation fails.
pub fn json_from_node_in_order(
    alloc: Global,
    node: &Node,
    steps: &mut Steps,
) -> Result<String, AllocError>
    ensures text { IfOk result (λ s. string_bytes s ≡ compact_text (data_in_order node.now)) }
    ensures reads_back { IfOk result (λ s. nesting node.now ≤ max_depth → IsTreeInOrder (string_bytes s) node.now) }
{
    node.names_differ();
    text_of(alloc, node, Order::AsTheyStand, steps)
}

/// Returns the compact JSON text of a node, with its members in an order.
pub(crate) fn text_of(
    alloc: Global,
    node: &Node,
    order: Order,
    steps: &mut Steps,
) -> Result<String, AllocError>
    ensures text { IfOk result (λ s. string_bytes s ≡ compact_text (data_in order node.now)) }
    ensures whole { OnOk result (AreWhole node.now) }
{
    let mut out = Writer::new(Vec::with_capacity(alloc, 128)?);
    write_node(alloc, node, order, &mut out, steps)?;
    match String::from_utf8(out.into_inner()) {
        Ok(text) => Ok(text),
        Err(_) => Err(AllocError),
    }
}

/// Writes a number.
fn write_whole(value: Whole, out: &mut Writer) -> Result<(), AllocError>
    ensures whole { IsWhole value }
    ensures ok { OnOk result (out.new.tokens ≡ out.old.tokens ++ number (number_text (of_integer value)) ∷ []) }
    ensures before { OnOk result (out.new.before ≡ out.old.before) }
{
    let number = value.value();
    match value.as_u64() {
        Some(n) => out.u64(n),
        None => out.i64(number as i64),
    }
}

/// Returns whether each name is below the next one, as the names of members are that were read by name.
fn are_in_order(members: &OrderedMap<Node>) -> bool
    ensures { IsTrue result → Ascends members.now }
{
    for i in 1..members.len() {
        let (name, _) = members.entry_at(i - 1);
        let (next, _) = members.entry_at(i);
        match name.cmp(next) {
            Ordering::Less => {}
            Ordering::Equal | Ordering::Greater => return false,
        }
    }
    true
}

/// Returns whether members are in an order already, without sorting.
fn may_stand(members: &OrderedMap<Node>, order: Order) -> bool
    ensures yes { IsTrue result → arranged order (standing order members.now) ≡ standing order members.now }
    ensures no { IsFalse result → order ≡ Order.ByName }
{
    match order {
        Order::ByName => are_in_order(members),
        Order::AsTheyStand => true,
    }
}

/// Returns the members of an object in the order of their names.
fn by_name<'a>(
    alloc: Global,
    members: &'a OrderedMap<Node>,
) -> Result<Vec<(&'a str, &'a Node)>, AllocError>
    ensures same { IfOk result (λ v. standing Order.ByName (lent v.items)
        ≡ arranged Order.ByName (standing Order.ByName members.now)) }
    ensures fit { IfOk result (λ v. AllFit (members_size (members_of members.now)) (lent v.items)) }
    ensures whole { IfOk result (λ v. MembersAreWhole (members_of (lent v.items))
        → MembersAreWhole (members_of members.now)) }
{
    let mut sorted = Vec::with_capacity(alloc, members.len())?;
    for i in 0..members.len() {
        sorted.push_reserved(members.entry_at(i));
    }
    sorted.sort_unstable_by_key(|entry| entry.0);
    Ok(sorted)
}

/// Writes a node.
#[cycle(write)]
fn write_node(
    alloc: Global,
    node: &Node,
    order: Order,
    out: &mut Writer,
    steps: &mut Steps,
) -> Result<(), AllocError>
    ensures ok { OnOk result (out.new.tokens ≡ out.old.tokens ++ data_tokens (data_in order node.now)) }
    ensures whole { OnOk result (AreWhole node.now) }
    ensures before { OnOk result (out.new.before ≡ out.old.before) }
{
    match node.open(steps) {
        View::Null => out.token(Token::Null),
        View::Flag(value) => out.token(Token::Bool(value)),
        View::Whole(value) => write_whole(value, out),
        View::Text(text) => out.token(Token::String(text)),
        View::List(items) => {
            out.begin_array()?;
            write_items(alloc, items, order, out, steps)
        }
        View::Object(members) => {
            out.begin_object()?;
            write_members(alloc, members, order, out, steps)
        }
    }
}

/// Writes the values of an array, and its end.
#[cycle(write)]
fn write_items(
    alloc: Global,
    items: &[Node],
    order: Order,
    out: &mut Writer,
    steps: &mut Steps,
) -> Result<(), AllocError>
    ensures ok { OnOk result (out.new.tokens ≡ out.old.tokens ++ items_data_tokens (items_in order (items_of items.now))) }
    ensures whole { OnOk result (ItemsAreWhole (items_of items.now)) }
    ensures before { OnOk result (out.new.before ≡ out.old.before) }
{
    for item in items {
        write_node(alloc, item, order, out, steps)?;
    }
    out.end_array()
}

/// Writes the members of an object in an order, and its end.
#[cycle(write)]
fn write_members(
    alloc: Global,
    members: &OrderedMap<Node>,
    order: Order,
    out: &mut Writer,
    steps: &mut Steps,
) -> Result<(), AllocError>
    ensures ok { OnOk result (out.new.tokens ≡ out.old.tokens
        ++ members_data_tokens (arranged order (standing order members.now))) }
    ensures whole { OnOk result (MembersAreWhole (members_of members.now)) }
    ensures before { OnOk result (out.new.before ≡ out.old.before) }
{
    if may_stand(members, order) {
        return write_standing(alloc, members, order, out, steps);
    }
    for (name, node) in by_name(alloc, members)? {
        out.key(name)?;
        write_node(alloc, node, order, out, steps)?;
    }
    out.end_object()
}

/// Writes the members of an object in their own order, and its end.
#[cycle(write)]
fn write_standing(
    alloc: Global,
    members: &OrderedMap<Node>,
    order: Order,
    out: &mut Writer,
    steps: &mut Steps,
) -> Result<(), AllocError>
    ensures ok { OnOk result (out.new.tokens ≡ out.old.tokens ++ members_data_tokens (standing order members.now)) }
    ensures whole { OnOk result (MembersAreWhole (members_of members.now)) }
    ensures before { OnOk result (out.new.before ≡ out.old.before) }
{
    for i in 0..members.len() {
        let (name, node) = members.entry_at(i);
        out.key(name)?;
        write_node(alloc, node, order, out, steps)?;
    }
    out.end_object()
}
