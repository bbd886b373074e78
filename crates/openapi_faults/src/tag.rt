//! The tags of objects, which decide by which table an object is read.
ghost use Rattle.std.specs.Prelude.{◌≡◌, map, is_some, IfSome};
ghost use Rattle.openapi_tables.specs.Faults.{tag_table, words};
ghost use Rattle.openapi_tables.specs.Kind as kinds;
ghost use Rattle.openapi_tables.specs.Members.{is_case};
ghost use Rattle.openapi_faults.specs.Meaning.{case_of, cases_of, kind_of, table_of, tag_name};

use crate::kind::Kind;
use crate::members::is_same;
use crate::table::TableName;

/// A text of a tag, and the table that it selects.
#[derive(Clone, Copy)]
pub(crate) struct Case(&'static str, TableName);

/// A tag: a member of an object whose text decides by which table the object is read.
#[derive(Clone, Copy)]
pub(crate) enum Tag {
    /// `in` of a Parameter Object.
    Parameter,
    /// `type` of a Security Scheme Object.
    SecurityScheme,
    /// `type` of a type of schema.
    SchemaType,
}

impl Tag {
    /// Returns the name of the member.
    pub(crate) fn name(self) -> &'static str
        ensures { result.now ≡ tag_name self }
    {
        match self {
            Tag::Parameter => "in",
            Tag::SecurityScheme | Tag::SchemaType => "type",
        }
    }

    /// Returns what the member may be.
    pub(crate) fn kind(self) -> Kind
        ensures { kind_of result ≡ kinds.one_of (words (cases_of self)) }
    {
        match self {
            Tag::Parameter => Kind::ParameterTag,
            Tag::SecurityScheme => Kind::SecuritySchemeTag,
            Tag::SchemaType => Kind::SchemaTypeTag,
        }
    }

    /// Returns the texts of the tag, each with the table that it selects.
    fn cases(self) -> &'static [Case]
        ensures { map case_of result.now ≡ cases_of self }
    {
        match self {
            Tag::Parameter => &[
                Case("query", TableName::QueryParameter),
                Case("header", TableName::HeaderParameter),
                Case("path", TableName::PathParameter),
                Case("cookie", TableName::CookieParameter),
            ],
            Tag::SecurityScheme => &[
                Case("apiKey", TableName::APIKeyScheme),
                Case("http", TableName::HTTPScheme),
                Case("oauth2", TableName::OAuth2Scheme),
                Case("openIdConnect", TableName::OpenIDConnectScheme),
            ],
            Tag::SchemaType => &[
                Case("string", TableName::StringType),
                Case("number", TableName::NumberType),
                Case("integer", TableName::IntegerType),
                Case("object", TableName::ObjectType),
                Case("array", TableName::ArrayType),
                Case("boolean", TableName::BooleanType),
            ],
        }
    }

    /// Returns the table that a text selects.
    pub(crate) fn table(self, text: &str) -> Option<TableName>
        ensures some { IfSome result (λ i. table_of i ≡ tag_table (cases_of self) text.now) }
        ensures known { is_some result ≡ is_case (cases_of self) text.now }
    {
        table_among(self.cases(), text)
    }
}

/// Returns the table that a text selects among these cases.
fn table_among(cases: &[Case], text: &str) -> Option<TableName>
    ensures some { IfSome result (λ i. table_of i ≡ tag_table (map case_of cases.now) text.now) }
    ensures known { is_some result ≡ is_case (map case_of cases.now) text.now }
{
    let [case, others @ ..] = cases else {
        return None;
    };
    if is_same(case.0, text) {
        Some(case.1)
    } else {
        table_among(others, text)
    }
}
