//! The fields that an object of a kind may have.
ghost use Rattle.std.specs.Prelude.{◌≡◌};
ghost use Rattle.std.specs.Option.{option_copied};
ghost use Rattle.openapi_node.specs.Tree.{members_of};
ghost use Rattle.openapi_findings.specs.Stated.{text_at};

use openapi_faults::{Class, Kind, Row, TableName};
use openapi_node::{Members, Steps, find_member};

/// The fields that an object may have: those of one table or of two, and the tag by which the table is found.
#[derive(Clone, Copy)]
pub(crate) struct Fields {
    pub rows: &'static [Row],
    pub more_rows: &'static [Row],
    pub tag: Option<&'static str>,
}

impl Fields {
    /// Returns the fields of a table.
    fn of(table: TableName) -> Fields {
        Fields {
            rows: table.rows(),
            more_rows: &[],
            tag: None,
        }
    }

    /// Returns the fields of the table that a tag names, or the tag alone where it names none.
    fn tagged(tag: &'static str, table: Option<TableName>) -> Fields {
        let rows: &'static [Row] = match table {
            Some(table) => table.rows(),
            None => &[],
        };
        Fields {
            rows,
            more_rows: &[],
            tag: Some(tag),
        }
    }

    /// Returns the kind of the member of a name.
    pub(crate) fn kind_of(&self, name: &str) -> Option<Kind> {
        match kind_among(self.rows, name) {
            Some(kind) => Some(kind),
            None => kind_among(self.more_rows, name),
        }
    }

    /// Returns the class of names that the fields have beside names of their own.
    pub(crate) fn class(&self) -> Option<Class> {
        for row in self.rows {
            if let Row::Names(class, _) = row {
                return Some(*class);
            }
        }
        None
    }

    /// Returns the name that excludes the member of a name.
    pub(crate) fn other_of(&self, name: &str) -> Option<&'static str> {
        for row in self.rows {
            if let Row::Either(first, _, second, _) = row {
                if *first == name {
                    return Some(*second);
                }
                if *second == name {
                    return Some(*first);
                }
            }
        }
        None
    }
}

/// Returns the fields that an object of a kind may have.
pub(crate) fn fields_of(kind: Kind, members: &Members, steps: &mut Steps) -> Fields {
    match without_reference(kind) {
        Kind::Object(table) => Fields::of(table),
        Kind::Schema => Fields {
            rows: TableName::SchemaData.rows(),
            more_rows: TableName::AnySchema.rows(),
            tag: None,
        },
        Kind::Parameter => {
            let table = text_of(members, "in", steps).and_then(parameter_table);
            Fields::tagged("in", table)
        }
        Kind::SecurityScheme => {
            let table = text_of(members, "type", steps).and_then(scheme_table);
            Fields::tagged("type", table)
        }
        _ => Fields {
            rows: &[],
            more_rows: &[],
            tag: None,
        },
    }
}

/// Returns the kind that is required if no reference replaces the value.
pub(crate) fn without_reference(kind: Kind) -> Kind {
    match kind {
        Kind::ObjectOrRef(table) => Kind::Object(table),
        Kind::ParameterOrRef => Kind::Parameter,
        Kind::SecuritySchemeOrRef => Kind::SecurityScheme,
        Kind::SchemaOrRef | Kind::FlagOrSchema => Kind::Schema,
        other => other,
    }
}

/// Returns the text of the member of a name, if there is one.
pub(crate) fn text_of<'a>(members: &'a Members, name: &str, steps: &mut Steps) -> Option<&'a str>
    ensures { option_copied result ≡ text_at name.now (members_of members.now) }
{
    find_member(members, name)?.open(steps).as_text()
}

/// Returns the table of the parameters in a location.
fn parameter_table(location: &str) -> Option<TableName> {
    match location {
        "query" => Some(TableName::QueryParameter),
        "header" => Some(TableName::HeaderParameter),
        "path" => Some(TableName::PathParameter),
        "cookie" => Some(TableName::CookieParameter),
        _ => None,
    }
}

/// Returns the table of the security schemes of a type.
fn scheme_table(name: &str) -> Option<TableName> {
    match name {
        "apiKey" => Some(TableName::APIKeyScheme),
        "http" => Some(TableName::HTTPScheme),
        "oauth2" => Some(TableName::OAuth2Scheme),
        "openIdConnect" => Some(TableName::OpenIDConnectScheme),
        _ => None,
    }
}

/// Returns the kind that the first of some rows requires that takes the member of a name.
fn kind_among(rows: &[Row], name: &str) -> Option<Kind> {
    for row in rows {
        if let Some(kind) = kind_by(*row, name) {
            return Some(kind);
        }
    }
    None
}

/// Returns the kind that a row requires of the member of a name, if the row takes it.
fn kind_by(row: Row, name: &str) -> Option<Kind> {
    match row {
        Row::Required(own, kind)
        | Row::Optional(own, kind)
        | Row::Nullable(own, kind)
        | Row::Listed(own, kind)
        | Row::Styled(own, _, kind)
        | Row::Format(own, kind)
            if own == name => { Some(kind) }
        Row::Flag(own) if own == name => Some(Kind::Flag),
        Row::Either(first, kind, _, _) if first == name => Some(kind),
        Row::Either(_, _, second, kind) if second == name => Some(kind),
        Row::Names(class, kind) if is_extension(name) == is_for_extensions(class) => Some(kind),
        _ => None,
    }
}

/// Returns whether a name is that of an extension.
fn is_extension(name: &str) -> bool {
    name.as_bytes().starts_with(b"x-")
}

/// Returns whether a class has the names of extensions.
fn is_for_extensions(class: Class) -> bool {
    matches!(class, Class::Extensions)
}
