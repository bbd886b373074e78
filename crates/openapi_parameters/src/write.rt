//! How the members of a parameter are written: its `in`, what parameters of all places have, and what only those of its
//! place have.
ghost use Rattle.std.specs.Prelude.{◌≡◌, [], OnOk, IfErr};
ghost use Rattle.openapi_tables.specs.Slots.{slots_lost, IsWritten};
ghost use Rattle.openapi_tables.specs.Tables.{final_tables};
ghost use Rattle.openapi_fields.specs.Returned.{NotWritable};
ghost use Rattle.openapi_parameters.specs.Parameters.{parameter_location_word, parameter_slots, parameter_word};
ghost use Rattle.openapi_parameters.specs.Parameters.{shared_slots};

use crate::location::ParameterLocation;
use crate::parameter::Parameter;
use openapi_fields::{append, put_implied, put_optional, put_tag, record_rows};
use openapi_node::{Members, Node, Result};
use openapi_values::Word;
use std::alloc::Global;

/// Returns the place that a parameter is in.
fn location(value: &Parameter) -> ParameterLocation
    ensures { parameter_location_word result ≡ parameter_word value.now }
{
    match value {
        Parameter::Query { .. } => ParameterLocation::Query,
        Parameter::Header { .. } => ParameterLocation::Header,
        Parameter::Path { .. } => ParameterLocation::Path,
        Parameter::Cookie { .. } => ParameterLocation::Cookie,
    }
}

/// Writes the `in` of a parameter, and behind it what parameters of all places have.
fn put_shared(alloc: Global, value: &Parameter, out: &mut Members) -> Result<()>
    requires { IsWritten final_tables [] out.old }
    ensures ok { OnOk result (IsWritten final_tables (shared_slots value.now) out.new) }
    ensures err { IfErr result (λ f. NotWritable f (slots_lost final_tables (parameter_slots value.now))) }
{
    put_tag(alloc, value, out, "in", location(value).as_str())?;
    append(alloc, out, record_rows(alloc, value.parameter_data_ref())?)
}

/// Writes the members of a parameter.
#[tactic(auto, unfolding(openapi_tables::specs::Tables::final_tables, openapi_tables::specs::Tables::tables_with))]
pub(crate) fn put_parameter(alloc: Global, value: &Parameter, out: &mut Members) -> Result<()>
    requires { IsWritten final_tables [] out.old }
    ensures ok { OnOk result (IsWritten final_tables (parameter_slots value.now) out.new) }
    ensures err { IfErr result (λ f. NotWritable f (slots_lost final_tables (parameter_slots value.now))) }
{
    put_shared(alloc, value, out)?;
    match value {
        Parameter::Query {
            allow_reserved,
            style,
            allow_empty_value,
            ..
        } => {
            put_implied(alloc, value, out, "allowReserved", allow_reserved)?;
            put_implied(alloc, value, out, "style", style)?;
            put_optional(alloc, value, out, "allowEmptyValue", allow_empty_value)
        }
        Parameter::Header { style, .. } => put_implied(alloc, value, out, "style", style),
        Parameter::Path { style, .. } => put_implied(alloc, value, out, "style", style),
        Parameter::Cookie { style, .. } => put_implied(alloc, value, out, "style", style),
    }
}
