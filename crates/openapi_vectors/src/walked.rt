//! The schemas of a document, walked as a user does.

use crate::read::read_value;
use openapiv3::{
    Components, FromNode, IntegerFormat, OpenAPI, ReferenceOr, SchemaKind, SchemaType,
    VariantOrUnknownOrEmpty,
};
use std::test::Fail;

/// The example of polymorphism of the OpenAPI Specification, as a document.
const PETS: &str =
    r##"{"openapi":"3.0.0","info":{"title":"Swagger Petstore","license":{"name":"MIT"},"version":"1.0.0","x-hash":"abc123"},"servers":[{"url":"http://petstore.swagger.io/v1"}],"paths":{},"components":{"schemas":{"Cat":{"description":"A representation of a cat","allOf":[{"$ref":"#/components/schemas/Pet"},{"type":"object","properties":{"huntingSkill":{"description":"The measured skill for hunting","type":"string","enum":["clueless","lazy","adventurous","aggressive"]}},"required":["huntingSkill"]}]},"Dog":{"description":"A representation of a dog","allOf":[{"$ref":"#/components/schemas/Pet"},{"type":"object","properties":{"packSize":{"description":"the size of the pack the dog is from","type":"integer","format":"int32","minimum":0}},"required":["packSize"]}]},"Pet":{"discriminator":{"propertyName":"petType"},"type":"object","properties":{"name":{"type":"string"},"petType":{"type":"string"}},"required":["name","petType"]}}}}"##;

/// Returns the kind of the schema at a name, if there is one.
fn kind_of<'a>(components: &'a Components, name: &str) -> Option<&'a SchemaKind> {
    let schema = components.schemas.get(name)?.as_item()?;
    Some(&schema.schema_kind)
}

/// Returns the type that comes second among the schemas of `allOf`, if it is an object.
fn second_type(kind: &SchemaKind) -> Option<&SchemaType> {
    let SchemaKind::AllOf { all_of } = kind else {
        return None;
    };
    match all_of.as_slice() {
        [ReferenceOr::Reference { .. }, ReferenceOr::Item(second)] => match &second.schema_kind {
            SchemaKind::Typed(found) => Some(found),
            _ => None,
        },
        _ => None,
    }
}

/// Returns whether a type is that of an object whose property of this name is an integer of 32 bits.
fn holds_int32(found: &SchemaType, name: &str) -> bool {
    let SchemaType::Object(object) = found else {
        return false;
    };
    let Some(property) = object.properties.get(name).and_then(|it| it.as_item()) else {
        return false;
    };
    match &property.schema_kind {
        SchemaKind::Typed(SchemaType::Integer(integer)) => {
            integer.format == VariantOrUnknownOrEmpty::Item(IntegerFormat::Int32)
        }
        _ => false,
    }
}

/// Returns whether a type is that of an object whose property of this name is a string.
fn holds_string(found: &SchemaType, name: &str) -> bool {
    let SchemaType::Object(object) = found else {
        return false;
    };
    let Some(property) = object.properties.get(name).and_then(|it| it.as_item()) else {
        return false;
    };
    matches!(
        &property.schema_kind,
        SchemaKind::Typed(SchemaType::String(_))
    )
}

/// Returns whether a type is that of an object with two properties, both strings.
fn is_pet(found: &SchemaType) -> bool {
    let SchemaType::Object(object) = found else {
        return false;
    };
    object.properties.len() == 2 && holds_string(found, "name") && holds_string(found, "petType")
}

/// Checks that the example's schemas have their sorts.
fn check_pets(components: &Components) -> Result<(), Fail> {
    let cat = kind_of(components, "Cat").and_then(second_type);
    if !matches!(cat, Some(SchemaType::Object(_))) {
        return Err(Fail::from("Cat is of another sort"));
    }
    let dog = kind_of(components, "Dog").and_then(second_type);
    if !dog.is_some_and(|it| holds_int32(it, "packSize")) {
        return Err(Fail::from("Dog is of another sort"));
    }
    match kind_of(components, "Pet") {
        Some(SchemaKind::Typed(pet)) if is_pet(pet) => Ok(()),
        _ => Err(Fail::from("Pet is of another sort")),
    }
}

/// What can be checked by itself.
trait Checked {
    /// Checks that the value is what the test expects.
    fn check(&self) -> Result<(), Fail>;
}

/// That a document is the example.
impl Checked for OpenAPI {
    fn check(&self) -> Result<(), Fail> {
        if self.operations().next().is_some() {
            return Err(Fail::from("an operation"));
        }
        match &self.components {
            Some(components) => check_pets(components),
            None => Err(Fail::from("no components")),
        }
    }
}

/// Checks that what is read from a JSON text is what the test expects.
fn check_read<T: FromNode + Checked + Drop>(rt: &HostRuntime, given: &str) -> Result<(), Fail> {
    let value: T = read_value(rt, given)?;
    value.check()
}

#[test]
fn schemas_of_a_document_have_their_sorts(rt: HostRuntime) -> Result<(), Fail> {
    check_read::<OpenAPI>(&rt, PETS)
}
