//! The values of the kind names that hold no schema and no JSON value: texts, numbers, flags and lists of texts.
ghost use Rattle.std.specs.Prelude.{◌+◌, ◌*◌, ◌≤◌};
ghost use Rattle.openapi_node.specs.Tree.{members_of};
ghost use Rattle.openapi_tables.specs.ByRow.{rows_weight};
ghost use Rattle.openapi_tables.specs.Kind as kinds;
ghost use Rattle.openapi_fields.specs.Returned.{RisesBy};
ghost use Rattle.openapi_schema.specs.PlainNames.{plain_forms, plain_rows};
ghost use Rattle.openapi_fields.specs.Reading.{PartReadAs};

use crate::kind_names::KindTable;
use openapi_fields::read_rows;
use openapi_node::{Members, Node, Result, Steps, Whole};
use std::alloc::Global;

/// The value under each of these names, where it is not null.
#[derive(Drop)]
pub(crate) struct PlainNames {
    pub typ: Option<String>,
    pub pattern: Option<String>,
    pub multiple_of: Option<Whole>,
    pub exclusive_minimum: Option<bool>,
    pub exclusive_maximum: Option<bool>,
    pub minimum: Option<Whole>,
    pub maximum: Option<Whole>,
    pub required: Option<Vec<String>>,
    pub min_properties: Option<usize>,
    pub max_properties: Option<usize>,
    pub min_items: Option<usize>,
    pub max_items: Option<usize>,
    pub unique_items: Option<bool>,
    pub format: Option<String>,
    pub min_length: Option<usize>,
    pub max_length: Option<usize>,
}

/// Reads these values, the texts last.
#[tactic(auto, using(crate::proofs::NameRows::plain_weight), unfolding(openapi_tables::specs::Members::checked_rows, openapi_tables::specs::Tables::any_rows))]
#[inline(never)]
pub(crate) fn read_plain_names(
    alloc: Global,
    members: &Members,
    steps: &mut Steps,
) -> Result<PlainNames>
    ensures reads { PartReadAs plain_forms result kinds.a_schema_kind plain_rows (members_of members.now) }
    ensures count { RisesBy steps.old steps.new (3 * rows_weight plain_rows (members_of members.now)) }
{
    read_rows!(alloc, members, steps, KindTable => PlainNames {
        multiple_of: optional("multipleOf"),
        exclusive_minimum: optional("exclusiveMinimum"),
        exclusive_maximum: optional("exclusiveMaximum"),
        minimum: optional("minimum"),
        maximum: optional("maximum"),
        min_properties: optional("minProperties"),
        max_properties: optional("maxProperties"),
        min_items: optional("minItems"),
        max_items: optional("maxItems"),
        unique_items: optional("uniqueItems"),
        min_length: optional("minLength"),
        max_length: optional("maxLength"),
        typ: optional("type"),
        pattern: optional("pattern"),
        format: optional("format"),
        required: optional("required"),
    })
}
