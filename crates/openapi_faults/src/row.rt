//! The fields of the field tables.
ghost use Rattle.std.specs.Prelude.{◌≡◌, cond};
ghost use Rattle.openapi_tables.specs.Members.{made_optional};
ghost use Rattle.openapi_faults.specs.Meaning.{row_of};

use crate::kind::Kind;

/// A class of names.
#[derive(Clone, Copy, Debug, PartialEq)]
pub enum Class {
    /// Names that begin with `x-`.
    Extensions,
    /// Names that do not begin with `x-`.
    CallbackNames,
    /// Names that begin with `/`.
    PathNames,
    /// Status codes and ranges of them.
    StatusNames,
}

/// A field of a field table: its members, the values that they may have, and the meaning of a missing member.
#[derive(Clone, Copy, Debug)]
pub enum Row {
    /// A required member.
    Required(&'static str, Kind),
    /// A member that may be missing or `null`.
    Optional(&'static str, Kind),
    /// A member that may be missing or `null`, and is then written as `null`.
    Nullable(&'static str, Kind),
    /// A list or a map that is empty if it is missing.
    Listed(&'static str, Kind),
    /// A flag that is `false` if it is missing.
    Flag(&'static str),
    /// A member whose value is a word of a fixed set, with the word that a missing member means.
    Styled(&'static str, &'static str, Kind),
    /// The name of a format, which may be missing or `null`.
    Format(&'static str, Kind),
    /// Two members of which one is required. If an object has both, the first in the object counts.
    Either(&'static str, Kind, &'static str, Kind),
    /// The members whose names are of a class.
    Names(Class, Kind),
}

impl Row {
    /// Returns the row as one whose member may be missing or `null`. A schema is checked by such rows while its type is
    /// not known.
    pub(crate) fn made_optional(self) -> Row
        ensures { row_of result ≡ made_optional (row_of self) }
    {
        match self {
            Row::Required(name, kind)
            | Row::Optional(name, kind)
            | Row::Nullable(name, kind)
            | Row::Listed(name, kind)
            | Row::Styled(name, _, kind)
            | Row::Format(name, kind) => Row::Optional(name, kind),
            Row::Flag(name) => Row::Optional(name, Kind::Flag),
            Row::Either(..) | Row::Names(..) => self,
        }
    }
    /// Returns the row, made optional where the rows are open.
    pub(crate) fn made_optional_if(&self, is_open: bool) -> Row
        ensures { row_of result ≡ cond is_open (made_optional (row_of self.now)) (row_of self.now) }
    {
        if is_open { self.made_optional() } else { *self }
    }
}
