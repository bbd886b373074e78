//! Schemas of no sort in particular.
ghost use Rattle.std.specs.Prelude.{◌≡◌, ◌*◌, [], None};
ghost use Rattle.openapi_tables.specs.Kind.{any_schema};
ghost use Rattle.openapi_schema.specs.Fields.{any_fields};

use crate::schema::{AdditionalProperties, Schema};
use crate::write::any_rows;
use openapi_fields::{Object, Record, from_joined, optional, or_implied};
use openapi_node::{Members, Node, OrderedMap, Result, Steps, Whole};
use openapi_values::ReferenceOr;
use std::alloc::Global;

/// A schema that is of none of the other kinds: any combination of their members.
#[cycle(schema)]
#[derive(Clone, Debug, PartialEq, Drop)]
pub struct AnySchema {
    /// `type`: any string.
    pub typ: Option<String>,
    /// A regular expression (ECMA 262) that a string has to match.
    pub pattern: Option<String>,
    /// The format of a string or a number.
    pub format: Option<String>,
    /// A number has to be a multiple of this.
    pub multiple_of: Option<Whole>,
    /// Whether `minimum` itself is excluded.
    pub exclusive_minimum: Option<bool>,
    /// Whether `maximum` itself is excluded.
    pub exclusive_maximum: Option<bool>,
    /// The least number that is allowed.
    pub minimum: Option<Whole>,
    /// The greatest number that is allowed.
    pub maximum: Option<Whole>,
    /// The least number of properties of an object.
    pub min_properties: Option<usize>,
    /// The greatest number of properties of an object.
    pub max_properties: Option<usize>,
    /// The least number of items of an array.
    pub min_items: Option<usize>,
    /// The greatest number of items of an array.
    pub max_items: Option<usize>,
    /// Whether no two items of an array may be equal.
    pub unique_items: Option<bool>,
    /// The least number of characters of a string.
    pub min_length: Option<usize>,
    /// The greatest number of characters of a string.
    pub max_length: Option<usize>,
    /// The names of the required properties of an object.
    pub required: Vec<String>,
    /// `enum`: the values that are allowed. Empty if any value is.
    pub enumeration: Vec<Node>,
    /// `additionalProperties`: whether an object may have other properties, or their schema.
    pub additional_properties: Option<AdditionalProperties>,
    /// This schema must not match.
    pub not: Option<Box<ReferenceOr<Schema>>>,
    /// The schema of the items of an array.
    pub items: Option<ReferenceOr<Box<Schema>>>,
    /// `oneOf`: exactly one of these schemas has to match.
    pub one_of: Vec<ReferenceOr<Schema>>,
    /// `allOf`: all of these schemas have to match.
    pub all_of: Vec<ReferenceOr<Schema>>,
    /// `anyOf`: at least one of these schemas has to match.
    pub any_of: Vec<ReferenceOr<Schema>>,
    /// The schemas of the properties of an object, by their names.
    pub properties: OrderedMap<ReferenceOr<Box<Schema>>>,
}

impl AnySchema {
    ghost use Rattle.openapi_schema.specs.declared.any_schema.AnySchema.{out-AnySchema};

    /// Creates an empty `AnySchema`, which allows any value; every field is `None` or empty.
    pub fn new(alloc: Global) -> AnySchema
        ensures typ { (out-AnySchema result).typ ≡ None }
        ensures pattern { (out-AnySchema result).pattern ≡ None }
        ensures multiple_of { (out-AnySchema result).multiple_of ≡ None }
        ensures exclusive_minimum { (out-AnySchema result).exclusive_minimum ≡ None }
        ensures exclusive_maximum { (out-AnySchema result).exclusive_maximum ≡ None }
        ensures minimum { (out-AnySchema result).minimum ≡ None }
        ensures maximum { (out-AnySchema result).maximum ≡ None }
        ensures properties { (out-AnySchema result).properties ≡ [] }
        ensures required { (out-AnySchema result).required.items ≡ [] }
        ensures additional_properties { (out-AnySchema result).additional_properties ≡ None }
        ensures min_properties { (out-AnySchema result).min_properties ≡ None }
        ensures max_properties { (out-AnySchema result).max_properties ≡ None }
        ensures items { (out-AnySchema result).items ≡ None }
        ensures min_items { (out-AnySchema result).min_items ≡ None }
        ensures max_items { (out-AnySchema result).max_items ≡ None }
        ensures unique_items { (out-AnySchema result).unique_items ≡ None }
        ensures enumeration { (out-AnySchema result).enumeration.items ≡ [] }
        ensures format { (out-AnySchema result).format ≡ None }
        ensures min_length { (out-AnySchema result).min_length ≡ None }
        ensures max_length { (out-AnySchema result).max_length ≡ None }
        ensures one_of { (out-AnySchema result).one_of.items ≡ [] }
        ensures all_of { (out-AnySchema result).all_of.items ≡ [] }
        ensures any_of { (out-AnySchema result).any_of.items ≡ [] }
        ensures not { (out-AnySchema result).not ≡ None }
    {
        AnySchema {
            typ: None,
            pattern: None,
            multiple_of: None,
            exclusive_minimum: None,
            exclusive_maximum: None,
            minimum: None,
            maximum: None,
            properties: OrderedMap::new(alloc),
            required: Vec::new(alloc),
            additional_properties: None,
            min_properties: None,
            max_properties: None,
            items: None,
            min_items: None,
            max_items: None,
            unique_items: None,
            enumeration: Vec::new(alloc),
            format: None,
            min_length: None,
            max_length: None,
            one_of: Vec::new(alloc),
            all_of: Vec::new(alloc),
            any_of: Vec::new(alloc),
            not: None,
        }
    }
}

impl Object for AnySchema {
    ghost table = { any_schema };

    ghost rows_of = { any_fields };
}

#[tactic(auto, unfolding(openapi_tables::specs::Tables::final_tables, openapi_tables::specs::Tables::tables_with, openapi_tables::specs::Tables::any_rows))]
impl Record for AnySchema {
    fn from_members(alloc: Global, members: &Members, steps: &mut Steps) -> Result<Self> {
        from_joined!(AnySchema {
            typ: optional::<Self, _>(alloc, members, "type", steps),
            pattern: optional::<Self, _>(alloc, members, "pattern", steps),
            format: optional::<Self, _>(alloc, members, "format", steps),
            multiple_of: optional::<Self, _>(alloc, members, "multipleOf", steps),
            exclusive_minimum: optional::<Self, _>(alloc, members, "exclusiveMinimum", steps),
            exclusive_maximum: optional::<Self, _>(alloc, members, "exclusiveMaximum", steps),
            minimum: optional::<Self, _>(alloc, members, "minimum", steps),
            maximum: optional::<Self, _>(alloc, members, "maximum", steps),
            min_properties: optional::<Self, _>(alloc, members, "minProperties", steps),
            max_properties: optional::<Self, _>(alloc, members, "maxProperties", steps),
            min_items: optional::<Self, _>(alloc, members, "minItems", steps),
            max_items: optional::<Self, _>(alloc, members, "maxItems", steps),
            unique_items: optional::<Self, _>(alloc, members, "uniqueItems", steps),
            min_length: optional::<Self, _>(alloc, members, "minLength", steps),
            max_length: optional::<Self, _>(alloc, members, "maxLength", steps),
            required: or_implied::<Self, _>(alloc, members, "required", steps),
            enumeration: or_implied::<Self, _>(alloc, members, "enum", steps),
            additional_properties: optional::<Self, _>(
                alloc,
                members,
                "additionalProperties",
                steps
            ),
            not: optional::<Self, _>(alloc, members, "not", steps),
            items: optional::<Self, _>(alloc, members, "items", steps),
            one_of: or_implied::<Self, _>(alloc, members, "oneOf", steps),
            all_of: or_implied::<Self, _>(alloc, members, "allOf", steps),
            any_of: or_implied::<Self, _>(alloc, members, "anyOf", steps),
            properties: or_implied::<Self, _>(alloc, members, "properties", steps),
        })
    }

    fn put_rows(&self, alloc: Global, out: &mut Members) -> Result<()> {
        *out = any_rows(alloc, self)?;
        Ok(())
    }
}
