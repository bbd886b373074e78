//! What a value breaks by itself, under a kind or a row of a table.
ghost use Rattle.std.specs.Prelude.{◌≡◌, is_some};
ghost use Rattle.openapi_node.specs.Tree.{members_of};
ghost use Rattle.openapi_node.specs.View.{shown};
ghost use Rattle.openapi_tables.specs.Faults.{causes, row_misses};
ghost use Rattle.openapi_tables.specs.Kind.{one_of, status_code, within};
ghost use Rattle.openapi_tables.specs.Lists.{has};
ghost use Rattle.openapi_tables.specs.Tables.{final_tables};
ghost use Rattle.openapi_tables.specs.Tree.{members_list};
ghost use Rattle.openapi_faults.specs.Meaning.{is_leaf, kind_of, limits_of, row_of, tagged_of};
ghost use Rattle.openapi_faults.specs.Told.{Gives, is_expected, number_causes, own_causes, unless_expected, words_in};

use crate::kind::{Inside, Kind, Limits};
use crate::members::first_of_two;
use crate::row::Row;
use crate::tag::Tag;
use openapi_node::{Cause, Expected, Members, View, Whole, find_member};
use openapi_values::{
    APIKeyLocation, CookieStyle, HeaderStyle, PathStyle, QueryStyle, StatusCode, Word,
};
use std::str::FromStr;

/// Returns the cause that a value breaks by itself under a kind. What the rows of a table miss in an object is left to
/// [`row_cause`].
pub(crate) fn cause_of(kind: Kind, view: &View<'_>) -> Option<Cause>
    ensures { Gives result (own_causes (kind_of kind) (shown view.now)) }
{
    match kind.inside() {
        Inside::Nothing => scalar_cause(kind, view),
        Inside::Item(_) => None,
        Inside::Items(_) => unless_expected(Expected::List, view),
        Inside::Schema => unless_expected(Expected::FlagOrObject, view),
        Inside::Tagged(tag) => tag_cause(tag, view),
        Inside::Members(_) | Inside::Rows(_) | Inside::SchemaRows | Inside::TypeRows => {
            unless_expected(Expected::Object, view)
        }
    }
}

/// Returns the cause of a member that a row misses in an object.
pub(crate) fn row_cause(row: Row, members: &Members) -> Option<Cause>
    ensures { Gives result (row_misses (members_list (members_of members.now)) (row_of row)) }
{
    match row {
        Row::Required(name, _) => match find_member(members, name) {
            Some(_) => None,
            None => Some(Cause::Missing(name)),
        },
        Row::Either(first, _, second, _) => match first_of_two(members, first, second) {
            Some(_) => None,
            None => Some(Cause::MissingEither(first, second)),
        },
        _ => None,
    }
}

/// Returns the cause of a value that holds no others.
fn scalar_cause(kind: Kind, view: &View<'_>) -> Option<Cause>
    requires { is_leaf (kind_of kind) }
    ensures { Gives result (causes final_tables (kind_of kind) (shown view.now)) }
{
    match kind {
        Kind::Text => unless_expected(Expected::Text, view),
        Kind::Flag => unless_expected(Expected::Flag, view),
        Kind::FlagOrNull => unless_expected(Expected::FlagOrNull, view),
        Kind::TextOrNull | Kind::StringFormat | Kind::NumberFormat | Kind::IntegerFormat => {
            unless_expected(Expected::TextOrNull, view)
        }
        Kind::Number(limits) => number_cause(Expected::Whole, limits, view),
        Kind::NumberOrNull(limits) => number_cause(Expected::WholeOrNull, limits, view),
        Kind::StatusCode => status_code_cause(view),
        Kind::APIKeyLocation
        | Kind::PathStyle
        | Kind::QueryStyle
        | Kind::CookieStyle
        | Kind::HeaderStyle
        | Kind::ParameterTag
        | Kind::SecuritySchemeTag
        | Kind::SchemaTypeTag => word_cause(kind, view),
        _ => None,
    }
}

/// Returns the cause of an object without its tag, or of another value.
fn tag_cause(tag: Tag, view: &View<'_>) -> Option<Cause>
    ensures { Gives result (causes final_tables (tagged_of tag) (shown view.now)) }
{
    let name = tag.name();
    match view {
        View::Object(members) => match find_member(members, name) {
            Some(_) => None,
            None => Some(Cause::Missing(name)),
        },
        _ => unless_expected(Expected::Object, view),
    }
}

/// Returns the cause of a number beyond limits, or of a value of another kind than the expected one.
fn number_cause(expected: Expected, limits: Limits, view: &View<'_>) -> Option<Cause>
    ensures { Gives result (number_causes expected (limits_of limits) (shown view.now)) }
{
    match view {
        View::Whole(number) => {
            if is_within(limits, *number) {
                None
            } else {
                Some(Cause::NotAllowed)
            }
        }
        _ => unless_expected(expected, view),
    }
}

/// Returns whether a number is within limits.
fn is_within(limits: Limits, number: Whole) -> bool
    ensures { result ≡ within (limits_of limits) number }
{
    match limits {
        Limits::Unlimited => true,
        Limits::Sizes => number.as_u64().is_some(),
        Limits::Signed => number.as_i64().is_some(),
    }
}

/// Returns the cause of a text that is no word of the kind, or of another value.
fn word_cause(kind: Kind, view: &View<'_>) -> Option<Cause>
    requires { kind_of kind ≡ one_of (words_in (kind_of kind)) }
    ensures { Gives result (causes final_tables (kind_of kind) (shown view.now)) }
{
    match view {
        View::Text(text) => {
            if is_word(kind, text) {
                None
            } else {
                Some(Cause::UnknownVariant)
            }
        }
        _ => unless_expected(Expected::Text, view),
    }
}

/// Returns whether a text is a word of the kind.
fn is_word(kind: Kind, text: &str) -> bool
    ensures { result ≡ has (words_in (kind_of kind)) text.now }
{
    match kind {
        Kind::APIKeyLocation => APIKeyLocation::from_word(text).is_some(),
        Kind::PathStyle => PathStyle::from_word(text).is_some(),
        Kind::QueryStyle => QueryStyle::from_word(text).is_some(),
        Kind::CookieStyle => CookieStyle::from_word(text).is_some(),
        Kind::HeaderStyle => HeaderStyle::from_word(text).is_some(),
        Kind::ParameterTag => Tag::Parameter.table(text).is_some(),
        Kind::SecuritySchemeTag => Tag::SecurityScheme.table(text).is_some(),
        Kind::SchemaTypeTag => Tag::SchemaType.table(text).is_some(),
        _ => false,
    }
}

/// Returns the cause of a text or a number that is no status code (RFC 9110, section 15), or of another value.
fn status_code_cause(view: &View<'_>) -> Option<Cause>
    ensures { Gives result (causes final_tables status_code (shown view.now)) }
{
    let is_code = match view {
        View::Text(text) => StatusCode::from_str(text).is_ok(),
        View::Whole(number) => StatusCode::try_from(*number).is_ok(),
        _ => return Some(Cause::WrongKind(Expected::TextOrWhole)),
    };
    if is_code {
        None
    } else {
        Some(Cause::NotAllowed)
    }
}

/// Returns the cause of a value of another kind than the expected one.
fn unless_expected(expected: Expected, view: &View<'_>) -> Option<Cause>
    ensures { Gives result (unless_expected expected (shown view.now)) }
{
    if is_expected(expected, view) {
        None
    } else {
        Some(Cause::WrongKind(expected))
    }
}

/// Returns whether a value is of the expected kind.
fn is_expected(expected: Expected, view: &View<'_>) -> bool
    ensures { result ≡ is_expected expected (shown view.now) }
{
    match view {
        View::Null => matches!(
            expected,
            Expected::TextOrNull | Expected::WholeOrNull | Expected::FlagOrNull
        ),
        View::Flag(_) => matches!(
            expected,
            Expected::Flag | Expected::FlagOrNull | Expected::FlagOrObject
        ),
        View::Whole(_) => matches!(
            expected,
            Expected::Whole | Expected::WholeOrNull | Expected::TextOrWhole
        ),
        View::Text(_) => matches!(
            expected,
            Expected::Text | Expected::TextOrNull | Expected::TextOrWhole
        ),
        View::List(_) => matches!(expected, Expected::List),
        View::Object(_) => matches!(expected, Expected::Object | Expected::FlagOrObject),
    }
}
