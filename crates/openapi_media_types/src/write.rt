#![tactic(auto, unfolding(openapi_tables::specs::Tables::final_tables, openapi_tables::specs::Tables::tables_with))]
//! How headers and contents are written. The functions are mutually recursive, as those that read them do: each
//! gets a smaller part of the value in the end.
ghost use Rattle.std.specs.Prelude.{◌≡◌, cond, codes};
ghost use Rattle.openapi_tables.specs.Kind as kinds;
ghost use Rattle.openapi_tables.specs.Lists.{same_text};
ghost use Rattle.openapi_tables.specs.Tables.{content, schema_ref};
ghost use Rattle.openapi_fields.specs.Forms.{map_form};
ghost use Rattle.openapi_fields.specs.Returned.{WrittenAs};
ghost use Rattle.openapi_fields.specs.Writing.{MemberWrittenAs, RowsWritten};
ghost use Rattle.openapi_values.specs.Reference.{reference_form};
ghost use Rattle.openapi_media_types.specs.ContentForms.{deciding_name, deciding_value};
ghost use Rattle.openapi_media_types.specs.ContentForms.{encoding_form, format_form, header_form, media_type_form};
ghost use Rattle.openapi_media_types.specs.Fields.{encoding_slots, header_slots, media_type_slots};

use crate::encoding::Encoding;
use crate::format::{ParameterSchemaOrContent, format_name};
use crate::header::Header;
use crate::media_type::{Content, MediaType};
use openapi_fields::{
    ToNode, put_decided, put_extensions, put_nullable, put_row, put_written, whole_object,
    write_reference, write_rows,
};
use openapi_node::{Members, Node, OrderedMap, Result};
use openapi_values::ReferenceOr;
use std::alloc::Global;

/// Writes a header or a reference to one.
#[cycle(write)]
fn write_header_ref(alloc: Global, value: &ReferenceOr<Header>) -> Result<Node>
    ensures { WrittenAs (kinds.ref_to (kinds.by kinds.header)) (reference_form header_form value.now) result }
{
    match value {
        ReferenceOr::Reference { reference } => write_reference(alloc, reference.as_str()),
        ReferenceOr::Item(header) => write_header(alloc, header),
    }
}

/// Writes a header.
#[cycle(write)]
pub(crate) fn write_header(alloc: Global, header: &Header) -> Result<Node>
    ensures { WrittenAs (kinds.by kinds.header) (header_form header.now) result }
{
    whole_object(header_members(alloc, header))
}

/// Returns the members that a header is written as.
#[cycle(write)]
fn header_members(alloc: Global, header: &Header) -> Result<Members>
    ensures { RowsWritten (header_slots header.now) result }
{
    let mut out = OrderedMap::new(alloc);
    write_rows!(alloc, header, &mut out => {
        description: put_optional("description"),
        style: put_implied("style"),
        required: put_implied("required"),
        deprecated: put_optional("deprecated"),
    });
    put_decided(
        alloc,
        header,
        &mut out,
        "schema",
        format_name(&header.format),
        write_format(alloc, &header.format),
    )?;
    write_rows!(alloc, header, &mut out => {
        example: put_optional("example"),
        examples: put_implied("examples"),
        ..extensions
    })?;
    Ok(out)
}

/// Writes the description of a parameter or a header: the value of the member with the name [`format_name`].
///
/// # Errors
///
/// Returns a [`Fault`](openapi_node::Fault) with [`Cause::NameNotWritable`](openapi_node::Cause::NameNotWritable) at an
/// extension whose name does not begin with `x-`. An allocation failure has
/// [`Cause::Memory`](openapi_node::Cause::Memory) and the empty location.
#[cycle(write)]
pub fn write_format(alloc: Global, format: &ParameterSchemaOrContent) -> Result<Node>
    ensures { WrittenAs (cond (same_text (codes "schema") (deciding_name (format_form format.now))) schema_ref content)
        (deciding_value (format_form format.now)) result }
{
    match format {
        ParameterSchemaOrContent::Schema(schema) => schema.to_node(alloc),
        ParameterSchemaOrContent::Content(content) => write_content(alloc, content),
    }
}

/// Writes a content.
#[cycle(write)]
fn write_content(alloc: Global, values: &Content) -> Result<Node>
    ensures { WrittenAs content (map_form media_type_form values.now) result }
{
    let mut out = OrderedMap::new(alloc);
    for i in 0..values.len() {
        let (name, value) = values.entry_at(i);
        match put_written(alloc, &mut out, name, write_media_type(alloc, value)) {
            Ok(()) => {}
            Err(fault) => return Err(fault),
        }
    }
    Ok(Node::object(out))
}

/// Writes a media type.
#[cycle(write)]
pub(crate) fn write_media_type(alloc: Global, media_type: &MediaType) -> Result<Node>
    ensures { WrittenAs (kinds.by kinds.media_type) (media_type_form media_type.now) result }
{
    whole_object(media_type_members(alloc, media_type))
}

/// Returns the members that a media type is written as.
#[cycle(write)]
fn media_type_members(alloc: Global, media_type: &MediaType) -> Result<Members>
    ensures { RowsWritten (media_type_slots media_type.now) result }
{
    let mut out = OrderedMap::new(alloc);
    write_rows!(alloc, media_type, &mut out => {
        schema: put_optional("schema"),
        example: put_optional("example"),
        examples: put_implied("examples"),
    });
    put_row(
        alloc,
        media_type,
        &mut out,
        "encoding",
        write_encodings(alloc, &media_type.encoding),
    )?;
    put_extensions(alloc, media_type, &mut out, &media_type.extensions)?;
    Ok(out)
}

/// Writes encodings by the names of properties, and nothing if there are none.
#[cycle(write)]
fn write_encodings(alloc: Global, values: &OrderedMap<Encoding>) -> Result<Option<Node>>
    ensures { MemberWrittenAs kinds.listed (kinds.map_of (kinds.by kinds.encoding)) (map_form encoding_form values.now)
        result }
{
    if values.is_empty() {
        return Ok(None);
    }
    let mut out = OrderedMap::new(alloc);
    for i in 0..values.len() {
        let (name, value) = values.entry_at(i);
        match put_written(alloc, &mut out, name, write_encoding(alloc, value)) {
            Ok(()) => {}
            Err(fault) => return Err(fault),
        }
    }
    Ok(Some(Node::object(out)))
}

/// Writes an encoding.
#[cycle(write)]
pub(crate) fn write_encoding(alloc: Global, encoding: &Encoding) -> Result<Node>
    ensures { WrittenAs (kinds.by kinds.encoding) (encoding_form encoding.now) result }
{
    whole_object(encoding_members(alloc, encoding))
}

/// Returns the members that an encoding is written as.
#[cycle(write)]
fn encoding_members(alloc: Global, encoding: &Encoding) -> Result<Members>
    ensures { RowsWritten (encoding_slots encoding.now) result }
{
    let mut out = OrderedMap::new(alloc);
    put_nullable(
        alloc,
        encoding,
        &mut out,
        "contentType",
        &encoding.content_type,
    )?;
    put_row(
        alloc,
        encoding,
        &mut out,
        "headers",
        write_headers(alloc, &encoding.headers),
    )?;
    write_rows!(alloc, encoding, &mut out => {
        style: put_optional("style"),
        explode: put_implied("explode"),
        allow_reserved: put_implied("allowReserved"),
        ..extensions
    })?;
    Ok(out)
}

/// Writes headers and references by names, and nothing if there are none.
#[cycle(write)]
fn write_headers(alloc: Global, values: &OrderedMap<ReferenceOr<Header>>) -> Result<Option<Node>>
    ensures { MemberWrittenAs kinds.listed (kinds.map_of (kinds.ref_to (kinds.by kinds.header)))
        (map_form (reference_form header_form) values.now) result }
{
    if values.is_empty() {
        return Ok(None);
    }
    let mut out = OrderedMap::new(alloc);
    for i in 0..values.len() {
        let (name, value) = values.entry_at(i);
        match put_written(alloc, &mut out, name, write_header_ref(alloc, value)) {
            Ok(()) => {}
            Err(fault) => return Err(fault),
        }
    }
    Ok(Some(Node::object(out)))
}
