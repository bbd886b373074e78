//! Members of an object: by a class of names, and the first of two names.
ghost use Rattle.std.specs.Prelude.{◌≡◌, ◌+◌, ◌≤◌, cond};
ghost use Rattle.std.specs.Option.{option_copied, option_map};
ghost use Rattle.std.specs.List.{slice_get};
ghost use Rattle.std.specs.Map.Iter.{deref_pair};
ghost use Rattle.openapi_node.specs.View.{shown};
ghost use Rattle.openapi_tables.specs.Kind.{in_class};
ghost use Rattle.openapi_tables.specs.Lists.{same_text};
ghost use Rattle.openapi_faults.specs.Meaning.{class_of, kind_of};
ghost use Rattle.openapi_fields.specs.Entries.{chosen};
ghost use Rattle.openapi_fields.specs.Forms.{is_either};
ghost use Rattle.openapi_faults.specs.Walk.{accesses, accesses_inside, is_chosen, reference_text};

use crate::kind::{Inside, Kind};
use crate::row::Class;
use openapi_node::{Members, Node, Steps, View, find_member};
use openapi_values::StatusCode;
use std::str::FromStr;

/// Returns whether two names are the same.
pub(crate) fn is_same(a: &str, b: &str) -> bool
    ensures { result ≡ same_text a.now b.now }
{
    a == b
}

/// Returns whether a name is of a class.
fn is_of(class: Class, name: &str) -> bool
    ensures { result ≡ in_class (class_of class) name.now }
{
    match class {
        Class::Extensions => name.as_bytes().starts_with(b"x-"),
        Class::CallbackNames => !name.as_bytes().starts_with(b"x-"),
        Class::PathNames => name.as_bytes().starts_with(b"/"),
        Class::StatusNames => StatusCode::from_str(name).is_ok(),
    }
}

/// Returns whether a name is of a class, where one is given.
pub(crate) fn is_among(class: Option<Class>, name: &str) -> bool
    ensures { result ≡ is_chosen class name.now }
{
    match class {
        Some(class) => is_of(class, name),
        None => true,
    }
}

/// Returns the kind of the member of a name, where the first of two names has one kind and the second another.
pub(crate) fn kind_by_name(first: &str, one: Kind, other: Kind, name: &str) -> Kind
    ensures { kind_of result ≡ cond (same_text first.now name.now) (kind_of one) (kind_of other) }
{
    if is_same(first, name) { one } else { other }
}

/// Returns whether a name is one of two.
fn is_one_of(first: &str, second: &str, name: &str) -> bool
    ensures { result ≡ is_either first.now second.now name.now }
{
    is_same(first, name) || is_same(second, name)
}

/// Returns the first of the members that have one of two names.
pub(crate) fn first_of_two<'a>(
    members: &'a Members,
    first: &str,
    second: &str,
) -> Option<(&'a str, &'a Node)>
    ensures { option_map deref_pair result ≡ slice_get (chosen (is_either first.now second.now) members.now) 0 }
{
    for i in 0..members.len() {
        let (name, node) = members.entry_at(i);
        if is_one_of(first, second, name) {
            return Some((name, node));
        }
    }
    None
}

/// Returns the text under `$ref` where a reference may replace a value of the kind, and does.
pub(crate) fn reference_in<'a>(kind: Kind, view: &View<'a>, steps: &mut Steps) -> Option<&'a str>
    ensures text { option_copied result ≡ reference_text (kind_of kind) (shown view.now) }
    ensures rises { steps.old ≤ steps.new }
    ensures count { steps.new + accesses_inside (kind_of kind) ≤ steps.old + accesses (kind_of kind) }
{
    let Inside::Item(_) = kind.inside() else {
        return None;
    };
    let View::Object(members) = view else {
        return None;
    };
    match find_member(members, "$ref") {
        Some(member) => member.open(steps).as_text(),
        None => None,
    }
}
