//! The field tables of OpenAPI 3.0.3: which members each object has.
ghost use Rattle.std.specs.Prelude.{◌≡◌, map};
ghost use Rattle.openapi_faults.specs.Meaning.{row_of, table_of};
ghost use Rattle.openapi_tables.specs.Tables.{final_tables};

use crate::kind::Kind::{
    self, APIKeyLocation, Any, CookieStyle, FlagOrSchema, FlagsOrNulls, HeaderStyle, IntegerFormat,
    Number, NumberFormat, NumbersOrNulls, Object, ObjectMap, ObjectOrRef, ObjectOrRefMap, Objects,
    ParameterOrRefMap, ParametersOrRefs, PathStyle, QueryStyle, SchemaOrRef, SchemaOrRefMap,
    SchemasOrRefs, SecurityRequirements, SecuritySchemeOrRefMap, StringFormat, Text, TextMap,
    Texts, TextsOrNulls, ValueMap, Values,
};
use crate::kind::Limits::*;
use crate::row::Class::*;
use crate::row::Row::{self, *};
use crate::table::TableName::*;

/// The name of a field table.
///
/// Each object of OpenAPI 3.0.3 has one, and so has each part of an object that can be read by itself.
#[derive(Clone, Copy, Debug, PartialEq)]
pub enum TableName {
    /// The OpenAPI Object (4.7.1).
    OpenAPI,
    /// The Info Object (4.7.2).
    Info,
    /// The Contact Object (4.7.3).
    Contact,
    /// The License Object (4.7.4).
    License,
    /// The Server Object (4.7.5).
    Server,
    /// The Server Variable Object (4.7.6).
    ServerVariable,
    /// The Components Object (4.7.7).
    Components,
    /// The Paths Object (4.7.8).
    Paths,
    /// The Path Item Object (4.7.9).
    PathItem,
    /// The Operation Object (4.7.10).
    Operation,
    /// The External Documentation Object (4.7.11).
    ExternalDocumentation,
    /// The fields that the Parameter Object has at every location (4.7.12).
    ParameterData,
    /// The Parameter Object of a query (4.7.12).
    QueryParameter,
    /// The Parameter Object of a header (4.7.12).
    HeaderParameter,
    /// The Parameter Object of a path (4.7.12).
    PathParameter,
    /// The Parameter Object of a cookie (4.7.12).
    CookieParameter,
    /// The schema or the content of a parameter or a header by itself (4.7.12).
    SchemaOrContent,
    /// The Request Body Object (4.7.13).
    RequestBody,
    /// The Media Type Object (4.7.14).
    MediaType,
    /// The Encoding Object (4.7.15).
    Encoding,
    /// The Responses Object (4.7.16).
    Responses,
    /// The Response Object (4.7.17).
    Response,
    /// The Callback Object (4.7.18).
    Callback,
    /// The Example Object (4.7.19).
    Example,
    /// The Link Object (4.7.20).
    Link,
    /// The operation that a Link Object names by itself (4.7.20).
    LinkOperation,
    /// The Header Object (4.7.21).
    Header,
    /// The Tag Object (4.7.22).
    Tag,
    /// The fields that every Schema Object may have (4.7.24).
    SchemaData,
    /// A schema of the type `string` (4.7.24).
    StringType,
    /// A schema of the type `number` (4.7.24).
    NumberType,
    /// A schema of the type `integer` (4.7.24).
    IntegerType,
    /// A schema of the type `object` (4.7.24).
    ObjectType,
    /// A schema of the type `array` (4.7.24).
    ArrayType,
    /// A schema of the type `boolean` (4.7.24).
    BooleanType,
    /// A schema of no single type: all fields that distinguish the types (4.7.24).
    AnySchema,
    /// The field `oneOf` of a schema by itself (4.7.24).
    OneOfSchema,
    /// The field `allOf` of a schema by itself (4.7.24).
    AllOfSchema,
    /// The field `anyOf` of a schema by itself (4.7.24).
    AnyOfSchema,
    /// The field `not` of a schema by itself (4.7.24).
    NotSchema,
    /// The Discriminator Object (4.7.25).
    Discriminator,
    /// The XML Object (4.7.26).
    Xml,
    /// The Security Scheme Object of an API key (4.7.27).
    APIKeyScheme,
    /// The Security Scheme Object of HTTP authentication (4.7.27).
    HTTPScheme,
    /// The Security Scheme Object of OAuth2 (4.7.27).
    OAuth2Scheme,
    /// The Security Scheme Object of OpenID Connect (4.7.27).
    OpenIDConnectScheme,
    /// The OAuth Flows Object (4.7.28).
    OAuth2Flows,
    /// The OAuth Flow Object of the implicit flow (4.7.29).
    ImplicitFlow,
    /// The OAuth Flow Object of the password flow (4.7.29).
    PasswordFlow,
    /// The OAuth Flow Object of the client credentials flow (4.7.29).
    ClientCredentialsFlow,
    /// The OAuth Flow Object of the authorization code flow (4.7.29).
    AuthorizationCodeFlow,
}

impl TableName {
    /// Returns the fields of the table, in the order in which they are written.
    #[tactic(auto, unfolding(openapi_tables::specs::Tables::final_tables, openapi_tables::specs::Tables::tables_with, openapi_tables::specs::SchemaTables::string_rows, openapi_tables::specs::SchemaTables::object_rows, openapi_tables::specs::SchemaTables::array_rows, openapi_tables::specs::SchemaTables::boolean_rows, openapi_tables::specs::SchemaTables::any_rows))]
    pub fn rows(self) -> &'static [Row]
        ensures { map row_of result.now ≡ final_tables (table_of self) }
    {
        match self {
            TableName::OpenAPI => &[
                Required("openapi", Text),
                Required("info", Object(Info)),
                Listed("servers", Objects(Server)),
                Required("paths", Object(Paths)),
                Optional("components", Object(Components)),
                Optional("security", SecurityRequirements),
                Listed("tags", Objects(Tag)),
                Optional("externalDocs", Object(ExternalDocumentation)),
                Names(Extensions, Any),
            ],
            TableName::Info => &[
                Required("title", Text),
                Optional("description", Text),
                Optional("termsOfService", Text),
                Optional("contact", Object(Contact)),
                Optional("license", Object(License)),
                Required("version", Text),
                Names(Extensions, Any),
            ],
            TableName::Contact => &[
                Optional("name", Text),
                Optional("url", Text),
                Optional("email", Text),
                Names(Extensions, Any),
            ],
            TableName::License => &[
                Required("name", Text),
                Optional("url", Text),
                Names(Extensions, Any),
            ],
            TableName::Server => &[
                Required("url", Text),
                Optional("description", Text),
                Optional("variables", ObjectMap(ServerVariable)),
                Names(Extensions, Any),
            ],
            TableName::ServerVariable => &[
                Listed("enum", Texts),
                Required("default", Text),
                Nullable("description", Text),
                Names(Extensions, Any),
            ],
            TableName::Components => &[
                Listed("schemas", SchemaOrRefMap),
                Listed("responses", ObjectOrRefMap(Response)),
                Listed("parameters", ParameterOrRefMap),
                Listed("examples", ObjectOrRefMap(Example)),
                Listed("requestBodies", ObjectOrRefMap(RequestBody)),
                Listed("headers", ObjectOrRefMap(Header)),
                Listed("securitySchemes", SecuritySchemeOrRefMap),
                Listed("links", ObjectOrRefMap(Link)),
                Listed("callbacks", ObjectOrRefMap(Callback)),
                Names(Extensions, Any),
            ],
            TableName::Paths => &[
                Names(PathNames, ObjectOrRef(PathItem)),
                Names(Extensions, Any),
            ],
            TableName::PathItem => &[
                Optional("summary", Text),
                Optional("description", Text),
                Optional("get", Object(Operation)),
                Optional("put", Object(Operation)),
                Optional("post", Object(Operation)),
                Optional("delete", Object(Operation)),
                Optional("options", Object(Operation)),
                Optional("head", Object(Operation)),
                Optional("patch", Object(Operation)),
                Optional("trace", Object(Operation)),
                Listed("servers", Objects(Server)),
                Listed("parameters", ParametersOrRefs),
                Names(Extensions, Any),
            ],
            TableName::Operation => &[
                Listed("tags", Texts),
                Optional("summary", Text),
                Optional("description", Text),
                Optional("externalDocs", Object(ExternalDocumentation)),
                Optional("operationId", Text),
                Listed("parameters", ParametersOrRefs),
                Optional("requestBody", ObjectOrRef(RequestBody)),
                Required("responses", Object(Responses)),
                Listed("callbacks", ObjectOrRefMap(Callback)),
                Flag("deprecated"),
                Optional("security", SecurityRequirements),
                Listed("servers", Objects(Server)),
                Names(Extensions, Any),
            ],
            TableName::ExternalDocumentation => &[
                Optional("description", Text),
                Required("url", Text),
                Names(Extensions, Any),
            ],
            TableName::ParameterData => &[
                Required("name", Text),
                Optional("description", Text),
                Flag("required"),
                Optional("deprecated", Kind::Flag),
                Either("schema", SchemaOrRef, "content", ObjectMap(MediaType)),
                Optional("example", Any),
                Listed("examples", ObjectOrRefMap(Example)),
                Optional("explode", Kind::Flag),
                Names(Extensions, Any),
            ],
            TableName::QueryParameter => &[
                Required("name", Text),
                Optional("description", Text),
                Flag("required"),
                Optional("deprecated", Kind::Flag),
                Either("schema", SchemaOrRef, "content", ObjectMap(MediaType)),
                Optional("example", Any),
                Listed("examples", ObjectOrRefMap(Example)),
                Optional("explode", Kind::Flag),
                Names(Extensions, Any),
                Flag("allowReserved"),
                Styled("style", "form", QueryStyle),
                Optional("allowEmptyValue", Kind::Flag),
            ],
            TableName::HeaderParameter => &[
                Required("name", Text),
                Optional("description", Text),
                Flag("required"),
                Optional("deprecated", Kind::Flag),
                Either("schema", SchemaOrRef, "content", ObjectMap(MediaType)),
                Optional("example", Any),
                Listed("examples", ObjectOrRefMap(Example)),
                Optional("explode", Kind::Flag),
                Names(Extensions, Any),
                Styled("style", "simple", HeaderStyle),
            ],
            TableName::PathParameter => &[
                Required("name", Text),
                Optional("description", Text),
                Flag("required"),
                Optional("deprecated", Kind::Flag),
                Either("schema", SchemaOrRef, "content", ObjectMap(MediaType)),
                Optional("example", Any),
                Listed("examples", ObjectOrRefMap(Example)),
                Optional("explode", Kind::Flag),
                Names(Extensions, Any),
                Styled("style", "simple", PathStyle),
            ],
            TableName::CookieParameter => &[
                Required("name", Text),
                Optional("description", Text),
                Flag("required"),
                Optional("deprecated", Kind::Flag),
                Either("schema", SchemaOrRef, "content", ObjectMap(MediaType)),
                Optional("example", Any),
                Listed("examples", ObjectOrRefMap(Example)),
                Optional("explode", Kind::Flag),
                Names(Extensions, Any),
                Styled("style", "form", CookieStyle),
            ],
            TableName::SchemaOrContent => &[Either(
                "schema",
                SchemaOrRef,
                "content",
                ObjectMap(MediaType),
            )],
            TableName::RequestBody => &[
                Optional("description", Text),
                Listed("content", ObjectMap(MediaType)),
                Flag("required"),
                Names(Extensions, Any),
            ],
            TableName::MediaType => &[
                Optional("schema", SchemaOrRef),
                Optional("example", Any),
                Listed("examples", ObjectOrRefMap(Example)),
                Listed("encoding", ObjectMap(Encoding)),
                Names(Extensions, Any),
            ],
            TableName::Encoding => &[
                Nullable("contentType", Text),
                Listed("headers", ObjectOrRefMap(Header)),
                Optional("style", QueryStyle),
                Flag("explode"),
                Flag("allowReserved"),
                Names(Extensions, Any),
            ],
            TableName::Responses => &[
                Optional("default", ObjectOrRef(Response)),
                Names(StatusNames, ObjectOrRef(Response)),
                Names(Extensions, Any),
            ],
            TableName::Response => &[
                Required("description", Text),
                Listed("headers", ObjectOrRefMap(Header)),
                Listed("content", ObjectMap(MediaType)),
                Listed("links", ObjectOrRefMap(Link)),
                Names(Extensions, Any),
            ],
            TableName::Callback => &[
                Names(CallbackNames, Object(PathItem)),
                Names(Extensions, Any),
            ],
            TableName::Example => &[
                Optional("summary", Text),
                Optional("description", Text),
                Optional("value", Any),
                Optional("externalValue", Text),
                Names(Extensions, Any),
            ],
            TableName::Link => &[
                Optional("description", Text),
                Either("operationRef", Text, "operationId", Text),
                Optional("requestBody", Any),
                Listed("parameters", ValueMap),
                Optional("server", Object(Server)),
                Names(Extensions, Any),
            ],
            TableName::LinkOperation => &[Either("operationRef", Text, "operationId", Text)],
            TableName::Header => &[
                Optional("description", Text),
                Styled("style", "simple", HeaderStyle),
                Flag("required"),
                Optional("deprecated", Kind::Flag),
                Either("schema", SchemaOrRef, "content", ObjectMap(MediaType)),
                Optional("example", Any),
                Listed("examples", ObjectOrRefMap(Example)),
                Names(Extensions, Any),
            ],
            TableName::Tag => &[
                Required("name", Text),
                Optional("description", Text),
                Optional("externalDocs", Object(ExternalDocumentation)),
                Names(Extensions, Any),
            ],
            TableName::SchemaData => &[
                Flag("nullable"),
                Flag("readOnly"),
                Flag("writeOnly"),
                Flag("deprecated"),
                Optional("externalDocs", Object(ExternalDocumentation)),
                Optional("example", Any),
                Optional("title", Text),
                Optional("description", Text),
                Optional("discriminator", Object(Discriminator)),
                Optional("default", Any),
                Optional("xml", Object(Xml)),
                Names(Extensions, Any),
            ],
            TableName::StringType => &[
                Format("format", StringFormat),
                Optional("pattern", Text),
                Listed("enum", TextsOrNulls),
                Optional("minLength", Number(Sizes)),
                Optional("maxLength", Number(Sizes)),
            ],
            TableName::NumberType => &[
                Format("format", NumberFormat),
                Optional("multipleOf", Number(Unlimited)),
                Flag("exclusiveMinimum"),
                Flag("exclusiveMaximum"),
                Optional("minimum", Number(Unlimited)),
                Optional("maximum", Number(Unlimited)),
                Listed("enum", NumbersOrNulls(Unlimited)),
            ],
            TableName::IntegerType => &[
                Format("format", IntegerFormat),
                Optional("multipleOf", Number(Signed)),
                Flag("exclusiveMinimum"),
                Flag("exclusiveMaximum"),
                Optional("minimum", Number(Signed)),
                Optional("maximum", Number(Signed)),
                Listed("enum", NumbersOrNulls(Signed)),
            ],
            TableName::ObjectType => &[
                Listed("properties", SchemaOrRefMap),
                Listed("required", Texts),
                Optional("additionalProperties", FlagOrSchema),
                Optional("minProperties", Number(Sizes)),
                Optional("maxProperties", Number(Sizes)),
            ],
            TableName::ArrayType => &[
                Optional("items", SchemaOrRef),
                Optional("minItems", Number(Sizes)),
                Optional("maxItems", Number(Sizes)),
                Flag("uniqueItems"),
            ],
            TableName::BooleanType => &[Listed("enum", FlagsOrNulls)],
            TableName::AnySchema => &[
                Optional("type", Text),
                Optional("pattern", Text),
                Optional("multipleOf", Number(Unlimited)),
                Optional("exclusiveMinimum", Kind::Flag),
                Optional("exclusiveMaximum", Kind::Flag),
                Optional("minimum", Number(Unlimited)),
                Optional("maximum", Number(Unlimited)),
                Listed("properties", SchemaOrRefMap),
                Listed("required", Texts),
                Optional("additionalProperties", FlagOrSchema),
                Optional("minProperties", Number(Sizes)),
                Optional("maxProperties", Number(Sizes)),
                Optional("items", SchemaOrRef),
                Optional("minItems", Number(Sizes)),
                Optional("maxItems", Number(Sizes)),
                Optional("uniqueItems", Kind::Flag),
                Listed("enum", Values),
                Optional("format", Text),
                Optional("minLength", Number(Sizes)),
                Optional("maxLength", Number(Sizes)),
                Listed("oneOf", SchemasOrRefs),
                Listed("allOf", SchemasOrRefs),
                Listed("anyOf", SchemasOrRefs),
                Optional("not", SchemaOrRef),
            ],
            TableName::OneOfSchema => &[Required("oneOf", SchemasOrRefs)],
            TableName::AllOfSchema => &[Required("allOf", SchemasOrRefs)],
            TableName::AnyOfSchema => &[Required("anyOf", SchemasOrRefs)],
            TableName::NotSchema => &[Required("not", SchemaOrRef)],
            TableName::Discriminator => &[
                Required("propertyName", Text),
                Listed("mapping", TextMap),
                Names(Extensions, Any),
            ],
            TableName::Xml => &[
                Optional("name", Text),
                Optional("namespace", Text),
                Optional("prefix", Text),
                Flag("attribute"),
                Flag("wrapped"),
                Names(Extensions, Any),
            ],
            TableName::APIKeyScheme => &[
                Required("in", APIKeyLocation),
                Required("name", Text),
                Optional("description", Text),
                Names(Extensions, Any),
            ],
            TableName::HTTPScheme => &[
                Required("scheme", Text),
                Optional("bearerFormat", Text),
                Optional("description", Text),
                Names(Extensions, Any),
            ],
            TableName::OAuth2Scheme => &[
                Required("flows", Object(OAuth2Flows)),
                Optional("description", Text),
                Names(Extensions, Any),
            ],
            TableName::OpenIDConnectScheme => &[
                Required("openIdConnectUrl", Text),
                Optional("description", Text),
                Names(Extensions, Any),
            ],
            TableName::OAuth2Flows => &[
                Optional("implicit", Object(ImplicitFlow)),
                Optional("password", Object(PasswordFlow)),
                Optional("clientCredentials", Object(ClientCredentialsFlow)),
                Optional("authorizationCode", Object(AuthorizationCodeFlow)),
                Names(Extensions, Any),
            ],
            TableName::ImplicitFlow => &[
                Required("authorizationUrl", Text),
                Optional("refreshUrl", Text),
                Required("scopes", TextMap),
                Names(Extensions, Any),
            ],
            TableName::PasswordFlow => &[
                Optional("refreshUrl", Text),
                Required("tokenUrl", Text),
                Required("scopes", TextMap),
                Names(Extensions, Any),
            ],
            TableName::ClientCredentialsFlow => &[
                Optional("refreshUrl", Text),
                Required("tokenUrl", Text),
                Required("scopes", TextMap),
                Names(Extensions, Any),
            ],
            TableName::AuthorizationCodeFlow => &[
                Required("authorizationUrl", Text),
                Required("tokenUrl", Text),
                Optional("refreshUrl", Text),
                Required("scopes", TextMap),
                Names(Extensions, Any),
            ],
        }
    }
}
