//! The calls for `tests/memory.sh`: which one the words name, and those that need no node.

use crate::marks::{Moment, mark};
use crate::samples::Sample;
use crate::told::{Told, told_by_growth};
use crate::{findings, nodes, objects, typed};
use openapi_test_support::trees::tree;
use openapiv3::{Node, OpenAPI, Operation, OrderedMap, ReferenceOr, Responses, Schema, Tag};
use std::alloc::{AllocError, Global};
use std::test::Fail;

/// Returns what comes of a call that is made on no sample.
///
/// # Errors
///
/// Returns [`Fail`] if an allocation fails, or if the text of the sample is not read.
pub fn alone(rt: &HostRuntime, call: &str) -> Result<Told, Fail> {
    match call {
        "ref_" => reference(rt.alloc()),
        "boxed_item" => boxed_item(rt.alloc(), tree(rt, Sample::Document.text())?),
        "insert" => insert(rt.alloc()),
        "entry" => entry(rt.alloc()),
        "extend" => extend(rt.alloc()),
        "collect" => collect(rt.alloc()),
        _ => Err(Fail::new("no such call")),
    }
}

/// Returns what comes of a call that is made on a sample.
///
/// # Errors
///
/// Returns [`Fail`] if an allocation fails, or if the text of the sample is not read.
pub fn on_sample(rt: &HostRuntime, call: &str, sample: Sample) -> Result<Told, Fail> {
    match call {
        "from_value" => nodes::from_value(rt, sample.text()),
        "to_value" => nodes::to_value(rt, sample.text()),
        "copy" => nodes::copy(rt, sample.text()),
        "clone" => nodes::clone(rt, sample.text()),
        "node_from_json" => nodes::node_from_json(rt, sample.text()),
        "json_from_node" => nodes::json_from_node(rt, sample.text()),
        "node_from_json_in_order" => nodes::node_from_json_in_order(rt, sample.text()),
        "json_from_node_in_order" => nodes::json_from_node_in_order(rt, sample.text()),
        "pretty_from_node" => nodes::pretty_from_node(rt, sample.text()),
        "pretty_from_node_in_order" => nodes::pretty_from_node_in_order(rt, sample.text()),
        "position_of" => nodes::position_of(rt, sample.text()),
        "position_below" => nodes::position_below(rt, sample),
        "positions_of" => nodes::positions_of(rt, sample),
        "faults" => findings::faults_of(rt, sample),
        "dropped_members" => findings::dropped_of(rt, sample),
        "references" => findings::references_of(rt, sample),
        "to_json" | "to_json_in_order" | "to_json_pretty" => objects::written(rt, call, sample),
        "locate" => objects::locate(rt, sample),
        _ => match sample {
            Sample::Schema => typed::on_sample::<Schema>(rt, call, sample),
            Sample::Responses | Sample::Refused => typed::on_sample::<Responses>(rt, call, sample),
            Sample::Document => typed::on_sample::<OpenAPI>(rt, call, sample),
            Sample::Operation => typed::on_sample::<Operation>(rt, call, sample),
            Sample::Tag => typed::on_sample::<Tag>(rt, call, sample),
        },
    }
}

/// Makes a reference of a text.
fn reference(alloc: Global) -> Result<Told, Fail> {
    let text = "#/components/schemas/Pet";
    let wanted = ReferenceOr::<Node>::Reference {
        reference: String::from_str(alloc, text)?,
    };
    mark(alloc, Moment::CallBegins)?;
    let answer = ReferenceOr::<Node>::ref_(alloc, text);
    mark(alloc, Moment::CallEnds)?;
    Ok(told_by_growth(answer, &wanted))
}

/// Puts an item in a box. The call owns the item, and drops it if the allocation of the box fails.
fn boxed_item(alloc: Global, item: Node) -> Result<Told, Fail> {
    let wanted = ReferenceOr::Item(Box::new(alloc, item.clone()?)?);
    mark(alloc, Moment::CallBegins)?;
    let answer = ReferenceOr::boxed_item(alloc, item);
    mark(alloc, Moment::CallEnds)?;
    Ok(told_by_growth(answer, &wanted))
}

/// Names of which a map holds all but the last without an index, and the last one with it.
const NAMES: [&str; 17] = [
    "a",
    "b",
    "c",
    "d",
    "e",
    "f",
    "g",
    "h",
    "i",
    "j",
    "k",
    "l",
    "m",
    "n",
    "o",
    "p",
    "seventeenth",
];

/// Returns the names, each beside its length.
fn pairs(alloc: Global) -> Result<Vec<(String, usize)>, Fail> {
    let mut pairs = Vec::new(alloc);
    for name in NAMES {
        pairs.push((String::from_str(alloc, name)?, name.len()))?;
    }
    Ok(pairs)
}

/// Returns a map with the first of the names, each beside its length.
fn map_of(alloc: Global, count: usize) -> Result<OrderedMap<usize>, Fail> {
    let mut map = OrderedMap::new(alloc);
    for name in NAMES.iter().take(count) {
        map.insert(String::from_str(alloc, name)?, name.len())?;
    }
    Ok(map)
}

/// Returns the outcome of a call that puts the last name in a map, or leaves the map as it was.
fn told_by_map<T: PartialEq + Drop>(
    alloc: Global,
    answer: Result<T, AllocError>,
    wanted: &T,
    map: &OrderedMap<usize>,
) -> Result<Told, Fail> {
    let count = if answer.is_ok() { 17 } else { 16 };
    let now = map_of(alloc, count)?;
    let told = told_by_growth(answer, wanted).if_kept(map, &now);
    Ok(told.if_kept(&map.len(), &now.len()))
}

/// Inserts the seventeenth name, for which the map makes an index of its names.
fn insert(alloc: Global) -> Result<Told, Fail> {
    let mut map = map_of(alloc, 16)?;
    let name = String::from_str(alloc, "seventeenth")?;
    mark(alloc, Moment::CallBegins)?;
    let answer = map.insert(name, 11);
    mark(alloc, Moment::CallEnds)?;
    told_by_map(alloc, answer, &None, &map)
}

/// Inserts the seventeenth name by its entry.
fn entry(alloc: Global) -> Result<Told, Fail> {
    let mut map = map_of(alloc, 16)?;
    let name = String::from_str(alloc, "seventeenth")?;
    mark(alloc, Moment::CallBegins)?;
    let answer = entered(&mut map, name, 11);
    mark(alloc, Moment::CallEnds)?;
    told_by_map(alloc, answer, &11, &map)
}

/// Returns the value at a name, after this one is put there where the map lacked the name.
fn entered(map: &mut OrderedMap<usize>, name: String, value: usize) -> Result<usize, AllocError> {
    let there = map.entry(name).or_insert(value)?;
    Ok(*there)
}

/// Extends a map of the first name by all names. If an allocation fails, the first ones are in the map.
fn extend(alloc: Global) -> Result<Told, Fail> {
    let pairs = pairs(alloc)?;
    let mut map = map_of(alloc, 1)?;
    mark(alloc, Moment::CallBegins)?;
    let answer = map.extend(pairs);
    mark(alloc, Moment::CallEnds)?;
    let count = if answer.is_ok() { 17 } else { map.len().max(1) };
    let now = map_of(alloc, count)?;
    Ok(told_by_growth(answer, &()).if_kept(&map, &now))
}

/// Collects all names into a map.
fn collect(alloc: Global) -> Result<Told, Fail> {
    let pairs = pairs(alloc)?;
    let wanted = map_of(alloc, 17)?;
    mark(alloc, Moment::CallBegins)?;
    let answer = pairs.into_iter().collect::<OrderedMap<usize>>(alloc);
    mark(alloc, Moment::CallEnds)?;
    Ok(told_by_growth(answer, &wanted))
}
