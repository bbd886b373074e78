//! The kinds that the types are read by.

use openapi_faults::{Kind, TableName};

/// Returns the kind that the type of a name is read by. Some types have none that is read by itself: a format, for
/// example, may be missing.
pub fn kind_of(name: &str) -> Option<Kind> {
    let kind = match name {
        "AdditionalProperties" => Kind::FlagOrSchema,
        "APIKeyLocation" => Kind::APIKeyLocation,
        "Content" => Kind::ObjectMap(TableName::MediaType),
        "CookieStyle" => Kind::CookieStyle,
        "HeaderStyle" => Kind::HeaderStyle,
        "Parameter" => Kind::Parameter,
        "PathStyle" => Kind::PathStyle,
        "QueryStyle" => Kind::QueryStyle,
        "Schema" => Kind::Schema,
        "SchemaKind" => Kind::SchemaKind,
        "SecurityRequirement" => Kind::SecurityRequirement,
        "SecurityScheme" => Kind::SecurityScheme,
        "StatusCode" => Kind::StatusCode,
        "Type" => Kind::SchemaType,
        "ReferenceOr<Parameter>" => Kind::ParameterOrRef,
        "ReferenceOr<Schema>" | "ReferenceOr<Box<Schema>>" => Kind::SchemaOrRef,
        "ReferenceOr<SecurityScheme>" => Kind::SecuritySchemeOrRef,
        _ => return kind_by_table(name),
    };
    Some(kind)
}

/// Returns the kind of a type that is read by a table, or of a reference to one.
fn kind_by_table(name: &str) -> Option<Kind> {
    let Some(rest) = name.strip_prefix("ReferenceOr<") else {
        return Some(Kind::Object(table_of(name)?));
    };
    let item = rest.strip_suffix(">")?;
    Some(Kind::ObjectOrRef(table_of(item)?))
}

/// Returns the table that a type is read by.
fn table_of(name: &str) -> Option<TableName> {
    let table = match name {
        "AnySchema" => TableName::AnySchema,
        "ArrayType" => TableName::ArrayType,
        "AuthorizationCodeOAuth2Flow" => TableName::AuthorizationCodeFlow,
        "BooleanType" => TableName::BooleanType,
        "Callback" => TableName::Callback,
        "ClientCredentialsOAuth2Flow" => TableName::ClientCredentialsFlow,
        "Components" => TableName::Components,
        "Contact" => TableName::Contact,
        "Discriminator" => TableName::Discriminator,
        "Encoding" => TableName::Encoding,
        "Example" => TableName::Example,
        "ExternalDocumentation" => TableName::ExternalDocumentation,
        "Header" => TableName::Header,
        "ImplicitOAuth2Flow" => TableName::ImplicitFlow,
        "Info" => TableName::Info,
        "IntegerType" => TableName::IntegerType,
        "License" => TableName::License,
        "Link" => TableName::Link,
        "LinkOperation" => TableName::LinkOperation,
        "MediaType" => TableName::MediaType,
        "NumberType" => TableName::NumberType,
        "OAuth2Flows" => TableName::OAuth2Flows,
        "ObjectType" => TableName::ObjectType,
        "OpenAPI" => TableName::OpenAPI,
        "Operation" => TableName::Operation,
        "ParameterData" => TableName::ParameterData,
        "ParameterSchemaOrContent" => TableName::SchemaOrContent,
        "PasswordOAuth2Flow" => TableName::PasswordFlow,
        "PathItem" => TableName::PathItem,
        "Paths" => TableName::Paths,
        "RequestBody" => TableName::RequestBody,
        "Response" => TableName::Response,
        "Responses" => TableName::Responses,
        "SchemaData" => TableName::SchemaData,
        "Server" => TableName::Server,
        "ServerVariable" => TableName::ServerVariable,
        "StringType" => TableName::StringType,
        "Tag" => TableName::Tag,
        "Xml" => TableName::Xml,
        _ => return None,
    };
    Some(table)
}
