#![tactic(auto, unfolding(openapi_tables::specs::Tables::final_tables, openapi_tables::specs::Tables::tables_with))]
//! Readers of headers and contents. The functions are mutually recursive: a header may have a content, a content has
//! media types, these have encodings, and these have headers. Each call gets a smaller part of the JSON value in the
//! end. A value is opened once, and passed on as its view.
ghost use Rattle.std.specs.Prelude.{◌≡◌, ◌+◌, ◌*◌, ◌≤◌, Some, codes};
ghost use Rattle.openapi_node.specs.Tree.{members_of, members_size, object, size_of};
ghost use Rattle.openapi_node.specs.View.{shown};
ghost use Rattle.openapi_tables.specs.Kind.{TableName};
ghost use Rattle.openapi_tables.specs.Kind as kinds;
ghost use Rattle.openapi_tables.specs.ByRow.{is_named, row_where, row_weight, rows_asked, rows_weight};
ghost use Rattle.openapi_tables.specs.Tables.{content, final_tables};
ghost use Rattle.openapi_fields.specs.Forms.{map_form};
ghost use Rattle.openapi_fields.specs.Returned.{ReadAs, RowReadAs, RowsReadAs, RisesBelow, RisesBy};
ghost use Rattle.openapi_values.specs.Reference.{reference_form};
ghost use Rattle.openapi_media_types.specs.ContentForms.{encoding_form, format_form, header_form, media_type_form};
ghost use Rattle.openapi_media_types.specs.Fields.{encoding_fields, format_row, header_fields, media_type_fields};

use crate::encoding::Encoding;
use crate::format::ParameterSchemaOrContent;
use crate::header::Header;
use crate::media_type::{Content, MediaType};
use openapi_fields::{
    Either, FromNode, as_item, at_name, decider, extensions, members_at, members_shown, nullable,
    optional, or_implied, put_read, read_reference,
};
use openapi_node::{Members, Node, OrderedMap, Result, Steps, View};
use openapi_values::ReferenceOr;
use std::alloc::Global;

/// Reads a header or a reference to one. An object with a text under `$ref` is a reference, whatever else it has.
#[cycle(read)]
fn read_header_ref(alloc: Global, view: &View<'_>, steps: &mut Steps) -> Result<ReferenceOr<Header>>
    ensures reads { ReadAs (reference_form header_form) result (kinds.ref_to (kinds.by kinds.header)) (shown view.now) }
    ensures count { RisesBelow steps.old steps.new (3 * size_of (shown view.now) + 1) }
{
    match read_reference(alloc, view, steps) {
        Ok(Some(reference)) => Ok(ReferenceOr::Reference { reference }),
        Ok(None) => as_item(read_header(alloc, view, steps)),
        Err(fault) => Err(fault),
    }
}

/// Reads a header.
#[cycle(read)]
pub(crate) fn read_header(alloc: Global, view: &View<'_>, steps: &mut Steps) -> Result<Header>
    ensures reads { ReadAs header_form result (kinds.by kinds.header) (shown view.now) }
    ensures count { RisesBelow steps.old steps.new (3 * size_of (shown view.now)) }
{
    match members_shown(alloc, view) {
        Ok(members) => header_of(alloc, members, steps),
        Err(fault) => Err(fault),
    }
}

/// Reads a header among the members of an object, what is plain first and what is large last.
#[cycle(read)]
fn header_of(alloc: Global, members: &Members, steps: &mut Steps) -> Result<Header>
    ensures reads { RowsReadAs header_fields result (kinds.by kinds.header) (members_of members.now) }
    ensures rises { steps.old ≤ steps.new }
    ensures count { steps.new ≤ steps.old + 3 * rows_weight (rows_asked final_tables (kinds.by kinds.header))
        (members_of members.now) }
{
    let style = or_implied::<Header, _>(alloc, members, "style", steps)?;
    let required = or_implied::<Header, _>(alloc, members, "required", steps)?;
    let deprecated = optional::<Header, _>(alloc, members, "deprecated", steps)?;
    let description = optional::<Header, _>(alloc, members, "description", steps)?;
    let example = optional::<Header, _>(alloc, members, "example", steps)?;
    let examples = or_implied::<Header, _>(alloc, members, "examples", steps)?;
    let extensions = extensions::<Header>(alloc, members, steps)?;
    let format = read_format(alloc, members, steps)?;
    Ok(Header {
        description,
        style,
        required,
        deprecated,
        format,
        example,
        examples,
        extensions,
    })
}

/// Reads the description of a parameter or a header among the members of an object: `schema` or `content`. If both are
/// present, the first one decides, and the other one is not read.
///
/// # Errors
///
/// Returns a [`Fault`](openapi_node::Fault) with a rule that the object breaks and the location where it does. An
/// allocation failure has [`Cause::Memory`](openapi_node::Cause::Memory) and the empty location.
#[cycle(read)]
pub fn read_format(
    alloc: Global,
    members: &Members,
    steps: &mut Steps,
) -> Result<ParameterSchemaOrContent>
    ensures reads { (i : TableName) → row_where (is_named (codes "schema")) (final_tables i) ≡ Some format_row
        → RowReadAs format_form result (kinds.by i) format_row (members_of members.now) }
    ensures count { RisesBy steps.old steps.new (3 * row_weight format_row (members_of members.now)) }
{
    match decider(alloc, members, "schema", "content") {
        Ok(Either::First(node)) => {
            match at_name(alloc, "schema", ReferenceOr::from_node(alloc, node, steps)) {
                Ok(schema) => Ok(ParameterSchemaOrContent::Schema(schema)),
                Err(fault) => Err(fault),
            }
        }
        Ok(Either::Second(node)) => {
            let entries = node.open(steps);
            match at_name(alloc, "content", read_content(alloc, &entries, steps)) {
                Ok(content) => Ok(ParameterSchemaOrContent::Content(content)),
                Err(fault) => Err(fault),
            }
        }
        Err(fault) => Err(fault),
    }
}

/// Reads a content.
#[cycle(read)]
fn read_content(alloc: Global, view: &View<'_>, steps: &mut Steps) -> Result<Content>
    ensures reads { ReadAs (map_form media_type_form) result content (shown view.now) }
    ensures count { RisesBelow steps.old steps.new (3 * size_of (shown view.now)) }
{
    match members_shown(alloc, view) {
        Ok(members) => media_types_of(alloc, members, steps),
        Err(fault) => Err(fault),
    }
}

/// Reads the media types among the members of an object, in order.
#[cycle(read)]
fn media_types_of(alloc: Global, members: &Members, steps: &mut Steps) -> Result<Content>
    ensures reads { ReadAs (map_form media_type_form) result content
        (object (members_of members.now)) }
    ensures count { RisesBy steps.old steps.new (3 * members_size (members_of members.now)) }
{
    let mut values = OrderedMap::new(alloc);
    for i in 0..members.len() {
        let (name, node) = members.entry_at(i);
        let entry = node.open(steps);
        match put_read(
            alloc,
            &mut values,
            name,
            read_media_type(alloc, &entry, steps),
        ) {
            Ok(()) => {}
            Err(fault) => return Err(fault),
        }
    }
    Ok(values)
}

/// Reads a media type.
#[cycle(read)]
pub(crate) fn read_media_type(
    alloc: Global,
    view: &View<'_>,
    steps: &mut Steps,
) -> Result<MediaType>
    ensures reads { ReadAs media_type_form result (kinds.by kinds.media_type) (shown view.now) }
    ensures count { RisesBelow steps.old steps.new (3 * size_of (shown view.now)) }
{
    match members_shown(alloc, view) {
        Ok(members) => media_type_of(alloc, members, steps),
        Err(fault) => Err(fault),
    }
}

/// Reads a media type among the members of an object, what is large last.
#[cycle(read)]
fn media_type_of(alloc: Global, members: &Members, steps: &mut Steps) -> Result<MediaType>
    ensures reads { RowsReadAs media_type_fields result (kinds.by kinds.media_type) (members_of members.now) }
    ensures count { RisesBy steps.old steps.new
        (3 * rows_weight (rows_asked final_tables (kinds.by kinds.media_type)) (members_of members.now)) }
{
    let example = optional::<MediaType, _>(alloc, members, "example", steps)?;
    let examples = or_implied::<MediaType, _>(alloc, members, "examples", steps)?;
    let encoding = read_encodings(alloc, members, steps)?;
    let extensions = extensions::<MediaType>(alloc, members, steps)?;
    let schema = optional::<MediaType, _>(alloc, members, "schema", steps)?;
    Ok(MediaType {
        schema,
        example,
        examples,
        encoding,
        extensions,
    })
}

/// Reads the encodings of a media type, by the names of properties; there are none if `encoding` is missing.
#[cycle(read)]
fn read_encodings(
    alloc: Global,
    members: &Members,
    steps: &mut Steps,
) -> Result<OrderedMap<Encoding>>
    ensures reads { RowReadAs (map_form encoding_form) result (kinds.by kinds.media_type)
        (kinds.row (codes "encoding") kinds.listed (kinds.map_of (kinds.by kinds.encoding))) (members_of members.now) }
    ensures count { RisesBy steps.old steps.new
        (3 * row_weight (kinds.row (codes "encoding") kinds.listed (kinds.map_of (kinds.by kinds.encoding))) (members_of members.now)) }
{
    match members_at(alloc, members, "encoding", steps) {
        Ok(None) => Ok(OrderedMap::new(alloc)),
        Ok(Some(entries)) => at_name(alloc, "encoding", encodings_of(alloc, entries, steps)),
        Err(fault) => Err(fault),
    }
}

/// Reads the encodings among the members of an object, in order.
#[cycle(read)]
fn encodings_of(alloc: Global, members: &Members, steps: &mut Steps) -> Result<OrderedMap<Encoding>>
    ensures reads { ReadAs (map_form encoding_form) result (kinds.map_of (kinds.by kinds.encoding))
        (object (members_of members.now)) }
    ensures count { RisesBy steps.old steps.new (3 * members_size (members_of members.now)) }
{
    let mut values = OrderedMap::new(alloc);
    for i in 0..members.len() {
        let (name, node) = members.entry_at(i);
        let entry = node.open(steps);
        match put_read(
            alloc,
            &mut values,
            name,
            read_encoding(alloc, &entry, steps),
        ) {
            Ok(()) => {}
            Err(fault) => return Err(fault),
        }
    }
    Ok(values)
}

/// Reads an encoding.
#[cycle(read)]
pub(crate) fn read_encoding(alloc: Global, view: &View<'_>, steps: &mut Steps) -> Result<Encoding>
    ensures reads { ReadAs encoding_form result (kinds.by kinds.encoding) (shown view.now) }
    ensures count { RisesBelow steps.old steps.new (3 * size_of (shown view.now)) }
{
    match members_shown(alloc, view) {
        Ok(members) => encoding_of(alloc, members, steps),
        Err(fault) => Err(fault),
    }
}

/// Reads an encoding among the members of an object, what is plain first.
#[cycle(read)]
fn encoding_of(alloc: Global, members: &Members, steps: &mut Steps) -> Result<Encoding>
    ensures reads { RowsReadAs encoding_fields result (kinds.by kinds.encoding) (members_of members.now) }
    ensures count { RisesBy steps.old steps.new
        (3 * rows_weight (rows_asked final_tables (kinds.by kinds.encoding)) (members_of members.now)) }
{
    let style = optional::<Encoding, _>(alloc, members, "style", steps)?;
    let explode = or_implied::<Encoding, _>(alloc, members, "explode", steps)?;
    let allow_reserved = or_implied::<Encoding, _>(alloc, members, "allowReserved", steps)?;
    let content_type = nullable::<Encoding, _>(alloc, members, "contentType", steps)?;
    let headers = read_headers(alloc, members, steps)?;
    let extensions = extensions::<Encoding>(alloc, members, steps)?;
    Ok(Encoding {
        content_type,
        headers,
        style,
        explode,
        allow_reserved,
        extensions,
    })
}

/// Reads the headers of an encoding, by their names; there are none if `headers` is missing.
#[cycle(read)]
fn read_headers(
    alloc: Global,
    members: &Members,
    steps: &mut Steps,
) -> Result<OrderedMap<ReferenceOr<Header>>>
    ensures reads { RowReadAs (map_form (reference_form header_form)) result (kinds.by kinds.encoding)
        (kinds.row (codes "headers") kinds.listed (kinds.map_of (kinds.ref_to (kinds.by kinds.header))))
        (members_of members.now) }
    ensures count { RisesBy steps.old steps.new
        (3 * row_weight (kinds.row (codes "headers") kinds.listed (kinds.map_of (kinds.ref_to (kinds.by kinds.header)))) (members_of members.now)) }
{
    match members_at(alloc, members, "headers", steps) {
        Ok(None) => Ok(OrderedMap::new(alloc)),
        Ok(Some(entries)) => at_name(alloc, "headers", headers_of(alloc, entries, steps)),
        Err(fault) => Err(fault),
    }
}

/// Reads the headers and references among the members of an object, in order.
#[cycle(read)]
fn headers_of(
    alloc: Global,
    members: &Members,
    steps: &mut Steps,
) -> Result<OrderedMap<ReferenceOr<Header>>>
    ensures reads { ReadAs (map_form (reference_form header_form)) result (kinds.map_of (kinds.ref_to (kinds.by kinds.header)))
        (object (members_of members.now)) }
    ensures count { RisesBy steps.old steps.new (3 * members_size (members_of members.now)) }
{
    let mut values = OrderedMap::new(alloc);
    for i in 0..members.len() {
        let (name, node) = members.entry_at(i);
        let entry = node.open(steps);
        match put_read(
            alloc,
            &mut values,
            name,
            read_header_ref(alloc, &entry, steps),
        ) {
            Ok(()) => {}
            Err(fault) => return Err(fault),
        }
    }
    Ok(values)
}
