#![tactic(auto, unfolding(openapi_tables::specs::Tables::final_tables, openapi_tables::specs::Tables::tables_with))]
//! How the members of a parameter are read, by the table of its place.
ghost use Rattle.std.specs.Prelude.{[], codes};
ghost use Rattle.openapi_node.specs.Tree.{members_of};
ghost use Rattle.openapi_tables.specs.Kind as kinds;
ghost use Rattle.openapi_fields.specs.Reading.{IsCaseRead};
ghost use Rattle.openapi_parameters.specs.Parameters.{parameter_rows, parameter_word};

use crate::parameter::Parameter;
use crate::parameter_data::ParameterData;
use openapi_fields::{Object, Record, optional, or_implied};
use openapi_node::{Members, Node, Result, Steps};
use std::alloc::Global;

/// The table of the parameters in a query.
struct QueryTable;

impl Object for QueryTable {
    ghost table = { kinds.query_parameter };

    ghost rows_of = { λ x. [] };
}

/// The table of the parameters in a header.
struct HeaderTable;

impl Object for HeaderTable {
    ghost table = { kinds.header_parameter };

    ghost rows_of = { λ x. [] };
}

/// The table of the parameters in a path.
struct PathTable;

impl Object for PathTable {
    ghost table = { kinds.path_parameter };

    ghost rows_of = { λ x. [] };
}

/// The table of the parameters in a cookie.
struct CookieTable;

impl Object for CookieTable {
    ghost table = { kinds.cookie_parameter };

    ghost rows_of = { λ x. [] };
}

/// Reads a parameter in a query.
pub(crate) fn read_query(alloc: Global, members: &Members, steps: &mut Steps) -> Result<Parameter>
    ensures { IsCaseRead parameter_word parameter_rows result (codes "query") kinds.query_parameter (members_of members.now)
        steps.old steps.new }
{
    let allow_reserved = or_implied::<QueryTable, _>(alloc, members, "allowReserved", steps)?;
    let style = or_implied::<QueryTable, _>(alloc, members, "style", steps)?;
    let allow_empty_value = optional::<QueryTable, _>(alloc, members, "allowEmptyValue", steps)?;
    Ok(Parameter::Query {
        parameter_data: ParameterData::from_members(alloc, members, steps)?,
        allow_reserved,
        style,
        allow_empty_value,
    })
}

/// Reads a parameter in a header.
pub(crate) fn read_header(alloc: Global, members: &Members, steps: &mut Steps) -> Result<Parameter>
    ensures { IsCaseRead parameter_word parameter_rows result (codes "header") kinds.header_parameter (members_of members.now)
        steps.old steps.new }
{
    let style = or_implied::<HeaderTable, _>(alloc, members, "style", steps)?;
    Ok(Parameter::Header {
        parameter_data: ParameterData::from_members(alloc, members, steps)?,
        style,
    })
}

/// Reads a parameter in a path.
pub(crate) fn read_path(alloc: Global, members: &Members, steps: &mut Steps) -> Result<Parameter>
    ensures { IsCaseRead parameter_word parameter_rows result (codes "path") kinds.path_parameter (members_of members.now)
        steps.old steps.new }
{
    let style = or_implied::<PathTable, _>(alloc, members, "style", steps)?;
    Ok(Parameter::Path {
        parameter_data: ParameterData::from_members(alloc, members, steps)?,
        style,
    })
}

/// Reads a parameter in a cookie.
pub(crate) fn read_cookie(alloc: Global, members: &Members, steps: &mut Steps) -> Result<Parameter>
    ensures { IsCaseRead parameter_word parameter_rows result (codes "cookie") kinds.cookie_parameter (members_of members.now)
        steps.old steps.new }
{
    let style = or_implied::<CookieTable, _>(alloc, members, "style", steps)?;
    Ok(Parameter::Cookie {
        parameter_data: ParameterData::from_members(alloc, members, steps)?,
        style,
    })
}
