//! Masks of the names by which the kinds of schemas are distinguished, and the sorts of schemas by them.
use openapi_schema_types::{Mask, NAMES, Sort};
use std::test::Fail;

/// The names by which the kinds of schemas are distinguished, the one with the lowest bit first. They are the fields of
/// `AnySchema`, in the order in which the Rust crate writes them.
const KIND_NAMES: [&str; NAMES] = [
    "type",
    "pattern",
    "multipleOf",
    "exclusiveMinimum",
    "exclusiveMaximum",
    "minimum",
    "maximum",
    "properties",
    "required",
    "additionalProperties",
    "minProperties",
    "maxProperties",
    "items",
    "minItems",
    "maxItems",
    "uniqueItems",
    "enum",
    "format",
    "minLength",
    "maxLength",
    "oneOf",
    "allOf",
    "anyOf",
    "not",
];

/// Returns the mask of these names.
fn mask_of(present: &[&str]) -> Mask {
    let mut flags = [false; NAMES];
    for (flag, name) in flags.iter_mut().zip(KIND_NAMES.iter()) {
        *flag = present.iter().any(|it| *it == *name);
    }
    Mask::of_flags(&flags)
}

/// Checks the bits of the mask of these names, and the sort of a schema by its `type` and them.
fn check_mask(typ: Option<&str>, present: &[&str], bits: u32, sort: Sort) -> Result<(), Fail> {
    let names = mask_of(present);
    if names.bits != bits {
        return Err(Fail::from("other bits"));
    }
    if Sort::by_names(typ, names) != sort {
        return Err(Fail::from("another sort"));
    }
    Ok(())
}

// Null counts as a missing member, so `{"oneOf":[],"not":null}` only has the name `oneOf`.
#[test]
fn sorts_are_found_by_masks() -> Result<(), Fail> {
    check_mask(
        Some("array"),
        &["type", "items", "maxItems"],
        20_481,
        Sort::Array,
    )?;
    check_mask(Some("string"), &["type", "required"], 257, Sort::Any)?;
    check_mask(None, &[], 0, Sort::Any)?;
    check_mask(None, &["oneOf"], 1_048_576, Sort::OneOf)
}
