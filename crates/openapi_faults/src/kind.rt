//! The kinds of values in a document.
ghost use Rattle.std.specs.Prelude.{◌≡◌};
ghost use Rattle.openapi_faults.specs.Meaning.{inside_of, kind_of};

use crate::table::TableName;
use crate::tag::Tag;

/// The whole numbers that are allowed for a number.
#[derive(Clone, Copy, Debug, PartialEq)]
pub enum Limits {
    /// All whole numbers.
    Unlimited,
    /// From 0 to 18446744073709551615: lengths and counts.
    Sizes,
    /// From -9223372036854775808 to 9223372036854775807.
    Signed,
}

/// The kind of a value: what the value may be.
#[derive(Clone, Copy, Debug, PartialEq)]
pub enum Kind {
    /// A string.
    Text,
    /// `true` or `false`.
    Flag,
    /// A whole number within limits.
    Number(Limits),
    /// Any JSON value.
    Any,
    /// The location of an API key: `query`, `header` or `cookie`.
    APIKeyLocation,
    /// The style of a parameter in the path.
    PathStyle,
    /// The style of a parameter in the query, and of an encoding.
    QueryStyle,
    /// The style of a parameter in a cookie.
    CookieStyle,
    /// The style of a parameter in a header, and of a header.
    HeaderStyle,
    /// The format of a string, or `null`.
    StringFormat,
    /// The format of a number, or `null`.
    NumberFormat,
    /// The format of an integer, or `null`.
    IntegerFormat,
    /// The location of a parameter, which is its tag: `query`, `header`, `path` or `cookie`.
    ParameterTag,
    /// The type of a security scheme, which is its tag: `apiKey`, `http`, `oauth2` or `openIdConnect`.
    SecuritySchemeTag,
    /// The type of a schema, which is its tag: `string`, `number`, `integer`, `object`, `array` or `boolean`.
    SchemaTypeTag,
    /// A string or `null`.
    TextOrNull,
    /// `true`, `false` or `null`.
    FlagOrNull,
    /// A whole number within limits, or `null`.
    NumberOrNull(Limits),
    /// A list of strings.
    Texts,
    /// A list of any values.
    Values,
    /// A list of strings and `null`s.
    TextsOrNulls,
    /// A list of flags and `null`s.
    FlagsOrNulls,
    /// A list of whole numbers within limits and of `null`s.
    NumbersOrNulls(Limits),
    /// A map of strings.
    TextMap,
    /// A map of any values.
    ValueMap,
    /// A Security Requirement Object: a map of lists of strings.
    SecurityRequirement,
    /// A list of Security Requirement Objects.
    SecurityRequirements,
    /// An object with the fields of a table.
    Object(TableName),
    /// A list of objects with the fields of a table.
    Objects(TableName),
    /// A map of objects with the fields of a table.
    ObjectMap(TableName),
    /// An object with the fields of a table, or a reference to one.
    ObjectOrRef(TableName),
    /// A map of objects with the fields of a table, and of references to them.
    ObjectOrRefMap(TableName),
    /// A Parameter Object, whose `in` selects its field table.
    Parameter,
    /// A Parameter Object or a reference to one.
    ParameterOrRef,
    /// A list of Parameter Objects and of references to them.
    ParametersOrRefs,
    /// A map of Parameter Objects and of references to them.
    ParameterOrRefMap,
    /// A Security Scheme Object, whose `type` selects its field table.
    SecurityScheme,
    /// A Security Scheme Object or a reference to one.
    SecuritySchemeOrRef,
    /// A map of Security Scheme Objects and of references to them.
    SecuritySchemeOrRefMap,
    /// A Schema Object.
    Schema,
    /// A Schema Object or a reference to one.
    SchemaOrRef,
    /// A list of Schema Objects and of references to them.
    SchemasOrRefs,
    /// A map of Schema Objects and of references to them.
    SchemaOrRefMap,
    /// `true`, `false`, a Schema Object or a reference to one.
    FlagOrSchema,
    /// A Schema Object without the fields that every schema may have.
    SchemaKind,
    /// A type of schema, whose `type` selects its field table.
    SchemaType,
    /// A status code, or a range of them.
    StatusCode,
}

/// What is required of the values inside one of a kind.
#[derive(Clone, Copy)]
pub(crate) enum Inside {
    /// Nothing.
    Nothing,
    /// This kind of each item of an array.
    Items(Kind),
    /// This kind of each member of an object.
    Members(Kind),
    /// What the rows of this table require.
    Rows(TableName),
    /// What the rows of the table require that the tag of the object names.
    Tagged(Tag),
    /// This kind of the value itself, unless it is a reference.
    Item(Kind),
    /// A schema or a reference of the value itself, where it is an object.
    Schema,
    /// What all schemas may have, and the names by which their types are distinguished.
    SchemaRows,
    /// Only the names by which the types of schemas are distinguished.
    TypeRows,
}

impl Kind {
    /// Returns what is required inside a value of the kind.
    pub(crate) fn inside(self) -> Inside
        ensures { inside_of (kind_of self) result }
    {
        match self {
            Kind::Texts => Inside::Items(Kind::Text),
            Kind::Values => Inside::Items(Kind::Any),
            Kind::TextsOrNulls => Inside::Items(Kind::TextOrNull),
            Kind::FlagsOrNulls => Inside::Items(Kind::FlagOrNull),
            Kind::NumbersOrNulls(limits) => Inside::Items(Kind::NumberOrNull(limits)),
            Kind::SecurityRequirements => Inside::Items(Kind::SecurityRequirement),
            Kind::Objects(table) => Inside::Items(Kind::Object(table)),
            Kind::ParametersOrRefs => Inside::Items(Kind::ParameterOrRef),
            Kind::SchemasOrRefs => Inside::Items(Kind::SchemaOrRef),
            Kind::TextMap => Inside::Members(Kind::Text),
            Kind::ValueMap => Inside::Members(Kind::Any),
            Kind::SecurityRequirement => Inside::Members(Kind::Texts),
            Kind::ObjectMap(table) => Inside::Members(Kind::Object(table)),
            Kind::ObjectOrRefMap(table) => Inside::Members(Kind::ObjectOrRef(table)),
            Kind::ParameterOrRefMap => Inside::Members(Kind::ParameterOrRef),
            Kind::SecuritySchemeOrRefMap => Inside::Members(Kind::SecuritySchemeOrRef),
            Kind::SchemaOrRefMap => Inside::Members(Kind::SchemaOrRef),
            Kind::Object(table) => Inside::Rows(table),
            Kind::Parameter => Inside::Tagged(Tag::Parameter),
            Kind::SecurityScheme => Inside::Tagged(Tag::SecurityScheme),
            Kind::SchemaType => Inside::Tagged(Tag::SchemaType),
            Kind::ObjectOrRef(table) => Inside::Item(Kind::Object(table)),
            Kind::ParameterOrRef => Inside::Item(Kind::Parameter),
            Kind::SecuritySchemeOrRef => Inside::Item(Kind::SecurityScheme),
            Kind::SchemaOrRef => Inside::Item(Kind::Schema),
            Kind::FlagOrSchema => Inside::Schema,
            Kind::Schema => Inside::SchemaRows,
            Kind::SchemaKind => Inside::TypeRows,
            _ => Inside::Nothing,
        }
    }
}
