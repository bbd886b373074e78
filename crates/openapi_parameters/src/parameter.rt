//! The Parameter Object.
ghost use Rattle.std.proofs.Common.{refl};
ghost use Rattle.std.specs.Prelude.{◌≡◌, ◌+◌, ◌≤◌, ◌*◌, None, codes, false, true};
ghost use Rattle.openapi_node.specs.Tree.{size_of};
ghost use Rattle.openapi_tables.specs.Kind.{ref_to};
ghost use Rattle.openapi_tables.specs.Tables.{parameter};
ghost use Rattle.openapi_values.specs.Reference.{reference_form};
ghost use Rattle.openapi_fields.specs.Returned.{ReadAs, Refuses, WrittenAs};
ghost use Rattle.openapi_fields.proofs.Spared.{parameter_spares};
ghost use Rattle.openapi_fields.proofs.Tagging.{parameter_sound, tagged_apart};
ghost use Rattle.openapi_parameters.specs.Parameters.{data_of_parameter, parameter_cases, parameter_form};
ghost use Rattle.openapi_parameters.specs.Parameters.{parameter_known, parameter_rows, parameter_slots, parameter_word};

use crate::location::ParameterLocation;
use crate::parameter_data::ParameterData;
use crate::read::{read_cookie, read_header, read_path, read_query};
use crate::write::put_parameter;
use openapi_fields::{FromNode, HasSlots, Object, Referable, ToNode, tag};
use openapi_node::{Cause, Expected, Fault, Node, OrderedMap, Result, Steps, View};
use openapi_values::{CookieStyle, HeaderStyle, PathStyle, QueryStyle, ReferenceOr};
use std::alloc::Global;

/// The Parameter Object (OpenAPI 3.0.3, section 4.7.12): one parameter of an operation. The variants are the values of
/// its `in`. A default style is written too.
#[derive(Clone, Debug, PartialEq, Drop)]
pub enum Parameter {
    /// `query`: in the query of the URL, such as `id` in `/items?id=7`.
    Query {
        /// The fields that parameters of all locations have.
        parameter_data: ParameterData,
        /// `allowReserved`: whether the value may contain reserved characters of RFC 3986 without escapes. False by
        /// default.
        allow_reserved: bool,
        /// How the value is serialized. `form` by default.
        style: QueryStyle,
        /// `allowEmptyValue`: whether the parameter may be sent with an empty value. False by default. OpenAPI advises
        /// against its use.
        allow_empty_value: Option<bool>,
    },
    /// `header`: in a header of the request, whose name is case-insensitive.
    Header {
        /// The fields that parameters of all locations have.
        parameter_data: ParameterData,
        /// How the value is serialized. `simple` by default, the only one.
        style: HeaderStyle,
    },
    /// `path`: in the path of the URL, such as `id` in `/items/{id}`.
    Path {
        /// The fields that parameters of all locations have.
        parameter_data: ParameterData,
        /// How the value is serialized. `simple` by default.
        style: PathStyle,
    },
    /// `cookie`: in a cookie that is sent.
    Cookie {
        /// The fields that parameters of all locations have.
        parameter_data: ParameterData,
        /// How the value is serialized. `form` by default, the only one.
        style: CookieStyle,
    },
}

impl Parameter {
    ghost use Rattle.openapi_parameters.specs.declared.parameter.Parameter.TheVariants as parameters;
    ghost use Rattle.openapi_values.specs.declared.parameter.QueryStyle.TheVariants as query_styles;
    ghost use Rattle.openapi_values.specs.declared.parameter.HeaderStyle.TheVariants as header_styles;
    ghost use Rattle.openapi_values.specs.declared.parameter.PathStyle.TheVariants as path_styles;
    ghost use Rattle.openapi_values.specs.declared.parameter.CookieStyle.TheVariants as cookie_styles;

    /// Creates a parameter in the query of the URL, in the default style.
    pub fn query(parameter_data: ParameterData) -> Parameter
        ensures { result ≡ parameters.Query parameter_data false query_styles.Form None }
    {
        Parameter::Query {
            parameter_data,
            allow_reserved: false,
            style: QueryStyle::Form,
            allow_empty_value: None,
        }
    }

    /// Creates a parameter in a header of the request, in the default style.
    pub fn header(parameter_data: ParameterData) -> Parameter
        ensures { result ≡ parameters.Header parameter_data header_styles.Simple }
    {
        Parameter::Header {
            parameter_data,
            style: HeaderStyle::Simple,
        }
    }

    /// Creates a parameter in the path of the URL, in the default style. It is required, as OpenAPI demands.
    pub fn path(parameter_data: ParameterData) -> Parameter
        ensures { result ≡ parameters.Path (record parameter_data { required = true }) path_styles.Simple }
    {
        let mut parameter_data = parameter_data;
        parameter_data.required = true;
        Parameter::Path {
            parameter_data,
            style: PathStyle::Simple,
        }
    }

    /// Creates a parameter in a cookie, in the default style.
    pub fn cookie(parameter_data: ParameterData) -> Parameter
        ensures { result ≡ parameters.Cookie parameter_data cookie_styles.Form }
    {
        Parameter::Cookie {
            parameter_data,
            style: CookieStyle::Form,
        }
    }

    /// Returns the fields that parameters of all locations have. The other ones are dropped.
    pub fn parameter_data(self) -> ParameterData
        ensures { result ≡ data_of_parameter self }
    {
        match self {
            Parameter::Query { parameter_data, .. }
            | Parameter::Header { parameter_data, .. }
            | Parameter::Path { parameter_data, .. }
            | Parameter::Cookie { parameter_data, .. } => parameter_data,
        }
    }

    /// Returns a reference to the fields that parameters of all locations have.
    pub fn parameter_data_ref(&self) -> &ParameterData
        ensures { result.now ≡ data_of_parameter self.now }
    {
        match self {
            Parameter::Query { parameter_data, .. }
            | Parameter::Header { parameter_data, .. }
            | Parameter::Path { parameter_data, .. }
            | Parameter::Cookie { parameter_data, .. } => parameter_data,
        }
    }
}

impl HasSlots for Parameter {
    ghost object = { parameter };

    ghost slots_of = { parameter_slots };

    ghost apart = { λ x. tagged_apart (codes "in") parameter_cases parameter_word parameter_rows x (parameter_known x)
        parameter_sound };
}

impl FromNode for Parameter {
    ghost kind = { parameter };

    ghost form_of = { parameter_form };

    fn from_view(alloc: Global, view: &View<'_>, steps: &mut Steps) -> Result<Parameter> {
        let View::Object(members) = view else {
            return Err(Fault::new(alloc, Cause::WrongKind(Expected::Object)));
        };
        match tag(alloc, members, "in", steps) {
            Ok(ParameterLocation::Query) => read_query(alloc, members, steps),
            Ok(ParameterLocation::Header) => read_header(alloc, members, steps),
            Ok(ParameterLocation::Path) => read_path(alloc, members, steps),
            Ok(ParameterLocation::Cookie) => read_cookie(alloc, members, steps),
            Err(fault) => Err(fault),
        }
    }

    ghost well_made = { parameter_sound };
}

impl ToNode for Parameter {
    fn to_node(&self, alloc: Global) -> Result<Node> {
        let mut out = OrderedMap::new(alloc);
        match put_parameter(alloc, self, &mut out) {
            Ok(()) => Ok(Node::object(out)),
            Err(fault) => Err(fault),
        }
    }

    ghost there = { λ x. refl };
}

impl Referable for Parameter {
    ghost spares_ref = { parameter_spares };
}

/// Reads a parameter or a reference to one.
///
/// # Errors
///
/// Returns a [`Fault`](openapi_node::Fault) with a rule that the value breaks and the location where it does. An
/// allocation failure has [`Cause::Memory`](openapi_node::Cause::Memory) and the empty location.
pub fn parameter_ref_from_node(
    alloc: Global,
    node: &Node,
    steps: &mut Steps,
) -> Result<ReferenceOr<Parameter>>
    ensures reads { ReadAs (reference_form parameter_form) result (ref_to parameter) node.now }
    ensures refuses { Refuses result (ref_to parameter) node.now }
    ensures rises { steps.old + 1 ≤ steps.new }
    ensures count { steps.new ≤ steps.old + 3 * size_of node.now }
{
    ReferenceOr::from_node(alloc, node, steps)
}

/// Writes a parameter or a reference to one.
///
/// # Errors
///
/// Returns a [`Fault`](openapi_node::Fault) with [`Cause::NameNotWritable`](openapi_node::Cause::NameNotWritable) at an
/// extension whose name does not begin with `x-`. An allocation failure has
/// [`Cause::Memory`](openapi_node::Cause::Memory) and the empty location.
pub fn parameter_ref_to_node(alloc: Global, value: &ReferenceOr<Parameter>) -> Result<Node>
    ensures { WrittenAs (ref_to parameter) (reference_form parameter_form value.now) result }
{
    value.to_node(alloc)
}
