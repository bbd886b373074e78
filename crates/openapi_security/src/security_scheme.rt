//! The Security Scheme Object.
ghost use Rattle.std.proofs.Common.{refl};
ghost use Rattle.std.specs.Prelude.{◌≡◌, ◌+◌, ◌≤◌, ◌*◌, [], codes, OnOk, IfErr};
ghost use Rattle.openapi_node.specs.Tree.{members_of, size_of};
ghost use Rattle.openapi_tables.specs.Kind.{ref_to};
ghost use Rattle.openapi_tables.specs.Kind as kinds;
ghost use Rattle.openapi_tables.specs.Slots.{slots_lost, IsWritten};
ghost use Rattle.openapi_tables.specs.Tables.{final_tables, security_scheme};
ghost use Rattle.openapi_fields.specs.Reading.{IsCaseRead};
ghost use Rattle.openapi_fields.specs.Returned.{ReadAs, NotWritable, Refuses, WrittenAs};
ghost use Rattle.openapi_fields.proofs.Spared.{security_scheme_spares};
ghost use Rattle.openapi_fields.proofs.Tagging.{security_scheme_sound, tagged_apart};
ghost use Rattle.openapi_values.specs.Reference.{reference_form};
ghost use Rattle.openapi_security.specs.Schemes.{scheme_types, scheme_cases, scheme_type_word};
ghost use Rattle.openapi_security.specs.Schemes.{security_scheme_word, security_scheme_rows};
ghost use Rattle.openapi_security.specs.Schemes.{security_scheme_form, security_scheme_slots};
ghost use Rattle.openapi_security.specs.Schemes.{security_scheme_known};

use crate::oauth2_flows::OAuth2Flows;
use openapi_fields::{
    FromNode, HasSlots, Object, Referable, ToNode, put_tag, read_rows, tag, write_rows,
};
use openapi_node::{Cause, Expected, Fault, Members, Node, OrderedMap, Result, Steps, View};
use openapi_values::{APIKeyLocation, ReferenceOr, Word};
use std::alloc::Global;

/// The Security Scheme Object (OpenAPI 3.0.3, section 4.7.27): a security scheme that operations may use. The variants
/// are the values of its `type`.
#[derive(Clone, Debug, PartialEq, Drop)]
pub enum SecurityScheme {
    /// `apiKey`: an API key in a header, a query parameter or a cookie.
    APIKey {
        /// `in`: where the API key is sent. Required.
        location: APIKeyLocation,
        /// The name of the header, query parameter or cookie. Required.
        name: String,
        /// A description of the security scheme, in CommonMark.
        description: Option<String>,
        /// Extensions: the members whose names begin with `x-`, in their order.
        extensions: OrderedMap<Node>,
    },
    /// `http`: HTTP authentication by the `Authorization` header.
    HTTP {
        /// The HTTP authentication scheme (RFC 7235), such as `basic` or `bearer`. Required.
        scheme: String,
        /// `bearerFormat`: a hint at the format of a bearer token, for people to read.
        bearer_format: Option<String>,
        /// A description of the security scheme, in CommonMark.
        description: Option<String>,
        /// Extensions: the members whose names begin with `x-`, in their order.
        extensions: OrderedMap<Node>,
    },
    /// `oauth2`: OAuth 2.
    OAuth2 {
        /// The flows of OAuth 2 that are supported. Required.
        flows: OAuth2Flows,
        /// A description of the security scheme, in CommonMark.
        description: Option<String>,
        /// Extensions: the members whose names begin with `x-`, in their order.
        extensions: OrderedMap<Node>,
    },
    /// `openIdConnect`: OpenID Connect Discovery.
    OpenIDConnect {
        /// `openIdConnectUrl`: the OpenID Connect URL, at which the OAuth 2 configuration values are found. Required.
        open_id_connect_url: String,
        /// A description of the security scheme, in CommonMark.
        description: Option<String>,
        /// Extensions: the members whose names begin with `x-`, in their order.
        extensions: OrderedMap<Node>,
    },
}

/// The types of security schemes.
#[derive(Clone, Copy)]
pub(crate) enum SchemeType {
    ApiKey,
    Http,
    OAuth2,
    OpenIdConnect,
}

impl Word for SchemeType {
    ghost use Rattle.openapi_security.specs.declared.security_scheme.SchemeType.TheVariants as types;

    ghost words = { scheme_types };

    ghost word_of = { scheme_type_word };

    ghost known = { elim [
      | types.ApiKey ↦ refl
      | types.Http ↦ refl
      | types.OAuth2 ↦ refl
      | types.OpenIdConnect ↦ refl
    ] };

    fn all() -> &'static [SchemeType] {
        &[
            SchemeType::ApiKey,
            SchemeType::Http,
            SchemeType::OAuth2,
            SchemeType::OpenIdConnect,
        ]
    }

    fn as_str(&self) -> &'static str {
        match self {
            SchemeType::ApiKey => "apiKey",
            SchemeType::Http => "http",
            SchemeType::OAuth2 => "oauth2",
            SchemeType::OpenIdConnect => "openIdConnect",
        }
    }
}

/// The table of the schemes by an API key.
struct ApiKeyTable;

impl Object for ApiKeyTable {
    ghost table = { kinds.api_key_scheme };

    ghost rows_of = { λ x. [] };
}

/// The table of the schemes by HTTP.
struct HttpTable;

impl Object for HttpTable {
    ghost table = { kinds.http_scheme };

    ghost rows_of = { λ x. [] };
}

/// The table of the schemes by OAuth 2.
struct OAuth2Table;

impl Object for OAuth2Table {
    ghost table = { kinds.oauth2_scheme };

    ghost rows_of = { λ x. [] };
}

/// The table of the schemes by OpenID Connect.
struct OpenIdConnectTable;

impl Object for OpenIdConnectTable {
    ghost table = { kinds.open_id_connect_scheme };

    ghost rows_of = { λ x. [] };
}

/// Reads a scheme by an API key.
fn api_key(alloc: Global, members: &Members, steps: &mut Steps) -> Result<SecurityScheme>
    ensures { IsCaseRead security_scheme_word security_scheme_rows result (codes "apiKey") kinds.api_key_scheme
        (members_of members.now) steps.old steps.new }
{
    read_rows!(alloc, members, steps, ApiKeyTable => SecurityScheme::APIKey {
        location: required("in"),
        name: required("name"),
        description: optional("description"),
        ..extensions
    })
}

/// Reads a scheme by HTTP.
fn http(alloc: Global, members: &Members, steps: &mut Steps) -> Result<SecurityScheme>
    ensures { IsCaseRead security_scheme_word security_scheme_rows result (codes "http") kinds.http_scheme
        (members_of members.now) steps.old steps.new }
{
    read_rows!(alloc, members, steps, HttpTable => SecurityScheme::HTTP {
        scheme: required("scheme"),
        bearer_format: optional("bearerFormat"),
        description: optional("description"),
        ..extensions
    })
}

/// Reads a scheme by OAuth 2.
fn oauth2(alloc: Global, members: &Members, steps: &mut Steps) -> Result<SecurityScheme>
    ensures { IsCaseRead security_scheme_word security_scheme_rows result (codes "oauth2") kinds.oauth2_scheme
        (members_of members.now) steps.old steps.new }
{
    read_rows!(alloc, members, steps, OAuth2Table => SecurityScheme::OAuth2 {
        flows: required("flows"),
        description: optional("description"),
        ..extensions
    })
}

/// Reads a scheme by OpenID Connect.
fn open_id_connect(alloc: Global, members: &Members, steps: &mut Steps) -> Result<SecurityScheme>
    ensures { IsCaseRead security_scheme_word security_scheme_rows result (codes "openIdConnect") kinds.open_id_connect_scheme
        (members_of members.now) steps.old steps.new }
{
    read_rows!(alloc, members, steps, OpenIdConnectTable => SecurityScheme::OpenIDConnect {
        open_id_connect_url: required("openIdConnectUrl"),
        description: optional("description"),
        ..extensions
    })
}

impl FromNode for SecurityScheme {
    ghost kind = { security_scheme };

    ghost form_of = { security_scheme_form };

    fn from_view(alloc: Global, view: &View<'_>, steps: &mut Steps) -> Result<SecurityScheme> {
        let View::Object(members) = view else {
            return Err(Fault::new(alloc, Cause::WrongKind(Expected::Object)));
        };
        match tag(alloc, members, "type", steps) {
            Ok(SchemeType::ApiKey) => api_key(alloc, members, steps),
            Ok(SchemeType::Http) => http(alloc, members, steps),
            Ok(SchemeType::OAuth2) => oauth2(alloc, members, steps),
            Ok(SchemeType::OpenIdConnect) => open_id_connect(alloc, members, steps),
            Err(fault) => Err(fault),
        }
    }

    ghost well_made = { security_scheme_sound };
}

impl HasSlots for SecurityScheme {
    ghost object = { security_scheme };

    ghost slots_of = { security_scheme_slots };

    ghost apart = { λ x. tagged_apart (codes "type") scheme_cases security_scheme_word security_scheme_rows x
        (security_scheme_known x) security_scheme_sound };
}

/// Writes the members of a scheme.
fn put_scheme(alloc: Global, value: &SecurityScheme, out: &mut Members) -> Result<()>
    requires { IsWritten final_tables [] out.old }
    ensures ok { OnOk result (IsWritten final_tables (security_scheme_slots value.now) out.new) }
    ensures err { IfErr result (λ f. NotWritable f (slots_lost final_tables (security_scheme_slots value.now))) }
{
    match value {
        SecurityScheme::APIKey {
            location,
            name,
            description,
            extensions,
        } => {
            put_tag(alloc, value, out, "type", "apiKey")?;
            write_rows!(alloc, value, out => bound {
                location: put_required("in"),
                name: put_required("name"),
                description: put_optional("description"),
                ..extensions
            })
        }
        SecurityScheme::HTTP {
            scheme,
            bearer_format,
            description,
            extensions,
        } => {
            put_tag(alloc, value, out, "type", "http")?;
            write_rows!(alloc, value, out => bound {
                scheme: put_required("scheme"),
                bearer_format: put_optional("bearerFormat"),
                description: put_optional("description"),
                ..extensions
            })
        }
        SecurityScheme::OAuth2 {
            flows,
            description,
            extensions,
        } => {
            put_tag(alloc, value, out, "type", "oauth2")?;
            write_rows!(alloc, value, out => bound {
                flows: put_required("flows"),
                description: put_optional("description"),
                ..extensions
            })
        }
        SecurityScheme::OpenIDConnect {
            open_id_connect_url,
            description,
            extensions,
        } => {
            put_tag(alloc, value, out, "type", "openIdConnect")?;
            write_rows!(alloc, value, out => bound {
                open_id_connect_url: put_required("openIdConnectUrl"),
                description: put_optional("description"),
                ..extensions
            })
        }
    }
}

impl ToNode for SecurityScheme {
    fn to_node(&self, alloc: Global) -> Result<Node> {
        let mut out = OrderedMap::new(alloc);
        match put_scheme(alloc, self, &mut out) {
            Ok(()) => Ok(Node::object(out)),
            Err(fault) => Err(fault),
        }
    }

    ghost there = { λ x. refl };
}

impl Referable for SecurityScheme {
    ghost spares_ref = { security_scheme_spares };
}

/// Reads a security scheme or a reference to one.
///
/// # Errors
///
/// Returns a [`Fault`](openapi_node::Fault) with a rule that the value breaks and the location where it does. An
/// allocation failure has [`Cause::Memory`](openapi_node::Cause::Memory) and the empty location.
pub fn security_scheme_ref_from_node(
    alloc: Global,
    node: &Node,
    steps: &mut Steps,
) -> Result<ReferenceOr<SecurityScheme>>
    ensures reads { ReadAs (reference_form security_scheme_form) result (ref_to security_scheme) node.now }
    ensures refuses { Refuses result (ref_to security_scheme) node.now }
    ensures rises { steps.old + 1 ≤ steps.new }
    ensures count { steps.new ≤ steps.old + 3 * size_of node.now }
{
    ReferenceOr::from_node(alloc, node, steps)
}

/// Writes a security scheme or a reference to one.
///
/// # Errors
///
/// Returns a [`Fault`](openapi_node::Fault) with [`Cause::NameNotWritable`](openapi_node::Cause::NameNotWritable) at an
/// extension whose name does not begin with `x-`. An allocation failure has
/// [`Cause::Memory`](openapi_node::Cause::Memory) and the empty location.
pub fn security_scheme_ref_to_node(
    alloc: Global,
    value: &ReferenceOr<SecurityScheme>,
) -> Result<Node>
    ensures { WrittenAs (ref_to security_scheme) (reference_form security_scheme_form value.now) result }
{
    value.to_node(alloc)
}
