//! Cases on all faults of a value, all members that reading drops, and all references.

use crate::kinds::kind_of;
use crate::marks::{Moment, mark};
use crate::samples::Sample;
use crate::told::{Told, told_by_growth};
use openapi_faults::{DropReason, Kind, TableName, dropped_members, faults, references};
use openapi_test_support::trees::tree;
use openapiv3::{Node, Pointer, Steps};
use std::test::Fail;

/// Returns all faults of a value of a type, a line each.
///
/// # Errors
///
/// Returns [`Fail`] if an allocation fails.
pub fn all_faults(rt: &HostRuntime, name: &str, node: &Node) -> Result<String, Fail> {
    let Some(kind) = kind_of(name) else {
        return no_such_type(rt);
    };
    let mut steps = Steps::new(rt);
    let mut answer = String::new(rt.alloc());
    for fault in faults(rt.alloc(), kind, node, &mut steps)? {
        answer.push_str(format!(in rt.alloc(); "! {fault}\n")?.as_str())?;
    }
    or_none(rt, answer)
}

/// Returns all members that reading a value of a type drops, a line each.
///
/// # Errors
///
/// Returns [`Fail`] if an allocation fails.
pub fn all_dropped(rt: &HostRuntime, name: &str, node: &Node) -> Result<String, Fail> {
    let Some(kind) = kind_of(name) else {
        return no_such_type(rt);
    };
    let mut steps = Steps::new(rt);
    let mut answer = String::new(rt.alloc());
    for dropped in dropped_members(rt.alloc(), kind, node, &mut steps)? {
        let why = match dropped.why {
            DropReason::UnknownMember => "unknown member",
            DropReason::SecondOfTwo => "second of two members",
            DropReason::BesideReference => "beside a reference",
        };
        let pointer = Pointer(dropped.place.as_slice());
        answer.push_str(format!(in rt.alloc(); "= {why} at #{pointer}\n")?.as_str())?;
    }
    or_none(rt, answer)
}

/// Returns all references of a value of a type, a line each.
///
/// # Errors
///
/// Returns [`Fail`] if an allocation fails.
pub fn all_references(rt: &HostRuntime, name: &str, node: &Node) -> Result<String, Fail> {
    let Some(kind) = kind_of(name) else {
        return no_such_type(rt);
    };
    let mut steps = Steps::new(rt);
    let mut answer = String::new(rt.alloc());
    for reference in references(rt.alloc(), kind, node, &mut steps)? {
        let pointer = Pointer(reference.place.as_slice());
        let text = reference.text.as_str();
        let target = reference.target;
        answer.push_str(format!(in rt.alloc();
            "= #{pointer} to {text} as {target:?}\n"
        )?.as_str())?;
    }
    or_none(rt, answer)
}

/// Returns the answer, or that there is nothing.
fn or_none(rt: &HostRuntime, answer: String) -> Result<String, Fail> {
    if answer.is_empty() {
        return Ok(String::from_str(rt.alloc(), "= none\n")?);
    }
    Ok(answer)
}

/// Returns that a type has no kind of its own.
fn no_such_type(rt: &HostRuntime) -> Result<String, Fail> {
    Ok(String::from_str(rt.alloc(), "! no such type for this command\n")?)
}

/// Returns whether the faults of a value agree with what reading it answers: none if it answers with a value, and if it answers
/// with a fault that one among them.
///
/// # Errors
///
/// Returns [`Fail`] if an allocation fails.
pub fn agree_with(rt: &HostRuntime, name: &str, node: &Node, answer: &str) -> Result<bool, Fail> {
    if kind_of(name).is_none() {
        return Ok(true);
    }
    let all = all_faults(rt, name, node)?;
    if answer.starts_with("= ") {
        return Ok(all.as_str() == "= none\n");
    }
    let fault = answer.trim_end();
    for line in all.as_str().lines() {
        if line == fault {
            return Ok(true);
        }
    }
    Ok(false)
}

/// Makes the list of all faults of a sample as a Security Requirement Object, whose members are lists.
///
/// # Errors
///
/// Returns [`Fail`] if an allocation fails, or if the text of the sample is not read.
pub fn faults_of(rt: &HostRuntime, sample: Sample) -> Result<Told, Fail> {
    let alloc = rt.alloc();
    let node = tree(rt, sample.text())?;
    let kind = Kind::SecurityRequirement;
    let mut steps = Steps::new(rt);
    let wanted = faults(alloc, kind, &node, &mut steps)?;
    mark(alloc, Moment::CallBegins)?;
    let answer = faults(alloc, kind, &node, &mut steps);
    mark(alloc, Moment::CallEnds)?;
    Ok(told_by_growth(answer, &wanted))
}

/// Makes the list of all members that reading a sample as a Contact Object drops.
///
/// # Errors
///
/// Returns [`Fail`] if an allocation fails, or if the text of the sample is not read.
pub fn dropped_of(rt: &HostRuntime, sample: Sample) -> Result<Told, Fail> {
    let alloc = rt.alloc();
    let node = tree(rt, sample.text())?;
    let kind = Kind::Object(TableName::Contact);
    let mut steps = Steps::new(rt);
    let wanted = dropped_members(alloc, kind, &node, &mut steps)?;
    mark(alloc, Moment::CallBegins)?;
    let answer = dropped_members(alloc, kind, &node, &mut steps);
    mark(alloc, Moment::CallEnds)?;
    Ok(told_by_growth(answer, &wanted))
}

/// Makes the list of all references of a document.
///
/// # Errors
///
/// Returns [`Fail`] if an allocation fails, or if the text of the sample is not read.
pub fn references_of(rt: &HostRuntime, sample: Sample) -> Result<Told, Fail> {
    let alloc = rt.alloc();
    let node = tree(rt, sample.text())?;
    let kind = Kind::Object(TableName::OpenAPI);
    let mut steps = Steps::new(rt);
    let wanted = references(alloc, kind, &node, &mut steps)?;
    mark(alloc, Moment::CallBegins)?;
    let answer = references(alloc, kind, &node, &mut steps);
    mark(alloc, Moment::CallEnds)?;
    Ok(told_by_growth(answer, &wanted))
}
