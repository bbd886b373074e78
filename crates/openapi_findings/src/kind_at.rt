//! The kind that a document requires of the value at a location.
use crate::fields::{fields_of, without_reference};
use openapi_faults::{Kind, TableName};
use openapi_node::{Members, Node, PlaceStep, Steps, View, find_member};

/// The kind of a whole document.
pub(crate) const DOCUMENT: Kind = Kind::Object(TableName::OpenAPI);

/// A value, and the kind that is required of it.
#[derive(Clone, Copy)]
pub(crate) struct Asked<'a> {
    pub kind: Kind,
    pub node: &'a Node,
}

/// Returns the value at a location of a document with the kind that is required of it, if there is one.
pub(crate) fn asked_at<'a>(
    document: &'a Node,
    place: &[PlaceStep],
    steps: &mut Steps,
) -> Option<Asked<'a>> {
    let mut asked = Asked {
        kind: DOCUMENT,
        node: document,
    };
    for step in place {
        asked = asked_below(asked, step, steps)?;
    }
    Some(asked)
}

/// Returns the value one step below, with its kind.
fn asked_below<'a>(asked: Asked<'a>, step: &PlaceStep, steps: &mut Steps) -> Option<Asked<'a>> {
    match (asked.node.open(steps), step) {
        (View::Object(members), PlaceStep::Name(name)) => Some(Asked {
            kind: member_kind(asked.kind, members, name.as_str(), steps)?,
            node: find_member(members, name.as_str())?,
        }),
        (View::List(items), PlaceStep::Index(index)) => Some(Asked {
            kind: item_kind(asked.kind)?,
            node: items.get(*index)?,
        }),
        _ => None,
    }
}

/// Returns the kind of the items of a list of a kind.
fn item_kind(list: Kind) -> Option<Kind> {
    match list {
        Kind::Texts => Some(Kind::Text),
        Kind::Values => Some(Kind::Any),
        Kind::TextsOrNulls => Some(Kind::TextOrNull),
        Kind::FlagsOrNulls => Some(Kind::FlagOrNull),
        Kind::NumbersOrNulls(limits) => Some(Kind::NumberOrNull(limits)),
        Kind::SecurityRequirements => Some(Kind::SecurityRequirement),
        Kind::Objects(table) => Some(Kind::Object(table)),
        Kind::ParametersOrRefs => Some(Kind::ParameterOrRef),
        Kind::SchemasOrRefs => Some(Kind::SchemaOrRef),
        _ => None,
    }
}

/// Returns the kind of the values of a map of a kind.
fn value_kind(map: Kind) -> Option<Kind> {
    match map {
        Kind::TextMap => Some(Kind::Text),
        Kind::ValueMap => Some(Kind::Any),
        Kind::SecurityRequirement => Some(Kind::Texts),
        Kind::ObjectMap(table) => Some(Kind::Object(table)),
        Kind::ObjectOrRefMap(table) => Some(Kind::ObjectOrRef(table)),
        Kind::ParameterOrRefMap => Some(Kind::ParameterOrRef),
        Kind::SecuritySchemeOrRefMap => Some(Kind::SecuritySchemeOrRef),
        Kind::SchemaOrRefMap => Some(Kind::SchemaOrRef),
        _ => None,
    }
}

/// Returns the kind of the member of a name of an object of a kind.
fn member_kind(object: Kind, members: &Members, name: &str, steps: &mut Steps) -> Option<Kind> {
    match (without_reference(object), name) {
        (Kind::Parameter, "in") => Some(Kind::ParameterTag),
        (Kind::SecurityScheme, "type") => Some(Kind::SecuritySchemeTag),
        _ => match value_kind(object) {
            Some(kind) => Some(kind),
            None => fields_of(object, members, steps).kind_of(name),
        },
    }
}
