//! The members of an object that is being read.
ghost use Rattle.std.specs.Prelude.{◌≡◌, ◌<◌, ◌≤◌, [], map, slice_set, string_bytes, IfOk, IfErr, IsTrue, OnOk};
ghost use Rattle.std.specs.BTreeMap.{insert_entry};
ghost use Rattle.std.specs.Cmp.Lexicographic.{slice_cmp};
ghost use Rattle.std.specs.List.{insert};
ghost use Rattle.std.specs.Ordering.{nat_cmp};
ghost use Rattle.std.specs.Vec.{vec_len};
ghost use Rattle.openapi_map.specs.Entries.{owned_entry};
ghost use Rattle.openapi_node.specs.Tree.{Tree};
ghost use Rattle.openapi_json.specs.Gathered.{AllBelow, Ascends, entries_in, IsInOrder};

use openapi_map::OrderedMap;
use openapi_node::Node;
use std::alloc::{AllocError, Global};
use std::cmp::Ordering;
use std::collections::BTreeMap;

/// How many members are sorted into a list before it is tried whether the rest comes in order.
const FEW: usize = 8;

/// The members of an object as they come: of one name the last.
#[derive(Drop)]
pub(crate) enum Members {
    /// Few members, in the order of their names.
    Few(Vec<(String, Node)>),
    /// Many members, of which some name did not come in order.
    ByName(BTreeMap<String, Node>),
    /// Many members, and each name since the first few was above all before it. They are in order already.
    InOrder(OrderedMap<Node>),
}

impl Members {
    /// Creates a value without members.
    pub(crate) fn new(alloc: Global) -> Members
        ensures none { entries_in result ≡ [] }
        ensures order { IsInOrder result }
    {
        Members::Few(Vec::new(alloc))
    }

    /// Returns the members with one more, which takes the place of one of its name.
    pub(crate) fn with(self, alloc: Global, name: String, node: Node) -> Result<Members, AllocError>
        requires { IsInOrder self }
        ensures entries { IfOk result (λ m. entries_in m
            ≡ insert_entry (slice_cmp nat_cmp) (entries_in self) (string_bytes name) node) }
        ensures order { IfOk result IsInOrder }
    {
        match self {
            Members::Few(mut members) => {
                put_among(&mut members, name, node)?;
                if members.len() < FEW {
                    return Ok(Members::Few(members));
                }
                Ok(Members::InOrder(few_in_order(alloc, members)?))
            }
            Members::ByName(mut members) => {
                drop(members.insert(name, node)?);
                Ok(Members::ByName(members))
            }
            Members::InOrder(mut members) => {
                if goes_last(&members, name.as_str()) {
                    members.push_new(name, node)?;
                    return Ok(Members::InOrder(members));
                }
                let mut sorted = by_name(alloc, members)?;
                drop(sorted.insert(name, node)?);
                Ok(Members::ByName(sorted))
            }
        }
    }

    /// Returns the members in a map, in the order of their names.
    pub(crate) fn into_map(self, alloc: Global) -> Result<OrderedMap<Node>, AllocError>
        requires { IsInOrder self }
        ensures { IfOk result (λ m. m ≡ entries_in self) }
    {
        match self {
            Members::Few(members) => few_in_order(alloc, members),
            Members::ByName(members) => in_order(alloc, members),
            Members::InOrder(members) => Ok(members),
        }
    }
}

/// Returns whether a name is above the last one.
fn goes_last(members: &OrderedMap<Node>, name: &str) -> bool
    ensures { IsTrue result → Ascends members.now → AllBelow name.now members.now }
{
    if members.is_empty() {
        return true;
    }
    let (last, _) = members.entry_at(members.len() - 1);
    match last.cmp(name) {
        Ordering::Less => true,
        Ordering::Equal | Ordering::Greater => false,
    }
}

/// Returns members that are in the order of their names, in a map by those names.
fn by_name(alloc: Global, members: OrderedMap<Node>) -> Result<BTreeMap<String, Node>, AllocError>
    requires { Ascends members }
    ensures { IfOk result (λ m. map owned_entry m.entries ≡ members) }
{
    let mut out = BTreeMap::new(alloc);
    for (name, node) in members {
        drop(out.insert(name, node)?);
    }
    Ok(out)
}

/// Returns members by their names, in a map that keeps that order.
fn in_order(alloc: Global, members: BTreeMap<String, Node>) -> Result<OrderedMap<Node>, AllocError>
    ensures same { IfOk result (λ m. m ≡ map owned_entry members.entries) }
    ensures order { IfOk result Ascends }
{
    let mut out = OrderedMap::with_capacity(alloc, members.len())?;
    for (name, node) in members {
        out.push_new(name, node)?;
    }
    Ok(out)
}

/// Returns the index of a name among members that are in the order of their names, or as an `Err` the index at which it
/// would be inserted.
fn place_among(members: &Vec<(String, Node)>, name: &str) -> Result<usize, usize>
    requires { Ascends (map owned_entry members.now.items) }
    ensures found { IfOk result (λ i. (i < vec_len members.now) × ((t : Tree) →
        insert_entry (slice_cmp nat_cmp) (map owned_entry members.now.items) name.now t
        ≡ slice_set (map owned_entry members.now.items) i (name.now, t))) }
    ensures absent { IfErr result (λ i. (i ≤ vec_len members.now) × ((t : Tree) →
        insert_entry (slice_cmp nat_cmp) (map owned_entry members.now.items) name.now t
        ≡ insert (map owned_entry members.now.items) i (name.now, t))) }
{
    let mut place = members.len();
    'places: while place > 0 {
        let (last, _) = &members[place - 1];
        match last.as_str().cmp(name) {
            Ordering::Less => return Err(place),
            Ordering::Equal => return Ok(place - 1),
            Ordering::Greater => place -= 1,
        }
    }
    Err(0)
}

/// Inserts a member among few that are in the order of their names. It replaces the member of its name.
fn put_among(members: &mut Vec<(String, Node)>, name: String, node: Node) -> Result<(), AllocError>
    requires { Ascends (map owned_entry members.old.items) }
    ensures entries { OnOk result (map owned_entry members.new.items
        ≡ insert_entry (slice_cmp nat_cmp) (map owned_entry members.old.items) (string_bytes name) node) }
    ensures order { OnOk result (Ascends (map owned_entry members.new.items)) }
{
    match place_among(members, name.as_str()) {
        Ok(place) => members[place] = (name, node),
        Err(place) => members.insert(place, (name, node))?,
    }
    Ok(())
}

/// Returns few members that are in the order of their names, in a map that keeps it.
fn few_in_order(alloc: Global, members: Vec<(String, Node)>) -> Result<OrderedMap<Node>, AllocError>
    requires { Ascends (map owned_entry members.items) }
    ensures { IfOk result (λ m. m ≡ map owned_entry members.items) }
{
    let mut kept = OrderedMap::with_capacity(alloc, members.len())?;
    for (name, node) in members {
        kept.push_new(name, node)?;
    }
    Ok(kept)
}
