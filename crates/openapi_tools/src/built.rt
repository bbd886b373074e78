//! A document that is built from nothing.
use openapiv3::{
    Components, IntegerType, MediaType, ObjectType, OpenAPI, Operation, OrderedMap, Parameter,
    ParameterData, ParameterSchemaOrContent, PathItem, ReferenceOr, Response, Responses, Schema,
    SchemaKind, SchemaType, StatusCode, StringType,
};
use std::alloc::{AllocError, Global};

/// Returns a map of one entry.
fn map_of<T: Drop>(alloc: Global, name: &str, value: T) -> Result<OrderedMap<T>, AllocError> {
    let mut map = OrderedMap::new(alloc);
    map.insert(String::from_str(alloc, name)?, value)?;
    Ok(map)
}

/// Returns the parameter `id` of the path.
fn id(alloc: Global) -> Result<Parameter, AllocError> {
    let name = String::from_str(alloc, "id")?;
    let kind = SchemaKind::Typed(SchemaType::Integer(IntegerType::new(alloc)));
    let schema = ReferenceOr::Item(Schema::new(alloc, kind));
    let format = ParameterSchemaOrContent::Schema(schema);
    Ok(Parameter::path(ParameterData::new(alloc, name, format)))
}

/// Returns the response with a pet.
fn response(alloc: Global) -> Result<Response, AllocError> {
    let description = String::from_str(alloc, "A pet")?;
    let schema = ReferenceOr::ref_(alloc, "#/components/schemas/Pet")?;
    let mut media_type = MediaType::new(alloc);
    media_type.schema = Some(schema);
    let content = map_of(alloc, "application/json", media_type)?;
    let mut response = Response::new(alloc);
    response.description = description;
    response.content = content;
    Ok(response)
}

/// Returns the responses of the operation that returns a pet.
fn responses(alloc: Global) -> Result<Responses, AllocError> {
    let response = ReferenceOr::Item(response(alloc)?);
    let mut responses = Responses::new(alloc);
    responses.responses.insert(StatusCode::Code(200), response)?;
    Ok(responses)
}

/// Returns the operation that returns a pet.
fn get_pet(alloc: Global) -> Result<Operation, AllocError> {
    let name = String::from_str(alloc, "getPet")?;
    let parameters = vec![in alloc; ReferenceOr::Item(id(alloc)?)]?;
    let responses = responses(alloc)?;
    let mut operation = Operation::new(alloc);
    operation.operation_id = Some(name);
    operation.parameters = parameters;
    operation.responses = responses;
    Ok(operation)
}

/// Returns the path with the operation.
fn path(alloc: Global) -> Result<OrderedMap<ReferenceOr<PathItem>>, AllocError> {
    let operation = get_pet(alloc)?;
    let mut item = PathItem::new(alloc);
    item.get = Some(operation);
    map_of(alloc, "/pets/{id}", ReferenceOr::Item(item))
}

/// Returns the schema of a pet, by its name.
fn schemas(alloc: Global) -> Result<OrderedMap<ReferenceOr<Schema>>, AllocError> {
    let required = vec![in alloc; String::from_str(alloc, "name")?]?;
    let name = SchemaKind::Typed(SchemaType::String(StringType::new(alloc)));
    let name = ReferenceOr::boxed_item(alloc, Schema::new(alloc, name))?;
    let properties = map_of(alloc, "name", name)?;
    let mut object = ObjectType::new(alloc);
    object.properties = properties;
    object.required = required;
    let pet = Schema::new(alloc, SchemaKind::Typed(SchemaType::Object(object)));
    map_of(alloc, "Pet", ReferenceOr::Item(pet))
}

/// Returns a document with one operation.
///
/// # Errors
///
/// [`AllocError`] if an allocation fails.
pub fn pets(alloc: Global) -> Result<OpenAPI, AllocError> {
    let openapi = String::from_str(alloc, "3.0.3")?;
    let title = String::from_str(alloc, "Pets")?;
    let version = String::from_str(alloc, "1")?;
    let schemas = schemas(alloc)?;
    let paths = path(alloc)?;
    let mut components = Components::new(alloc);
    components.schemas = schemas;
    let mut document = OpenAPI::new(alloc);
    document.openapi = openapi;
    document.info.title = title;
    document.info.version = version;
    document.paths.paths = paths;
    document.components = Some(components);
    Ok(document)
}
