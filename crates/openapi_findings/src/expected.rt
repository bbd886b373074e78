//! What is expected at a point of a text, in words.
use crate::nesting::Open;
use crate::stop::trimmed_len;

/// What may be next at an offset of a text.
#[derive(Clone, Copy, Debug, PartialEq, Eq)]
pub(crate) enum Expected {
    Value,
    ValueOrEnd,
    Name,
    NameOrEnd,
    CommaOrBrace,
    CommaOrBracket,
    End,
}

impl Expected {
    /// Returns what may be next behind some bytes, in the innermost array or object that is not closed.
    pub(crate) fn behind(bytes: &[u8], inside: Option<Open>) -> Expected {
        let end = trimmed_len(bytes);
        let last = if end == 0 { None } else { Some(bytes[end - 1]) };
        match (last, inside) {
            (None | Some(b':'), _) => Expected::Value,
            (Some(b'['), _) => Expected::ValueOrEnd,
            (Some(b'{'), _) => Expected::NameOrEnd,
            (Some(b','), Some(Open::Array)) => Expected::Value,
            (Some(b','), Some(Open::Object)) => Expected::Name,
            (Some(_), Some(Open::Array)) => Expected::CommaOrBracket,
            (Some(_), Some(Open::Object)) => Expected::CommaOrBrace,
            (Some(_), None) => Expected::End,
        }
    }

    /// Returns it in words.
    pub(crate) fn as_str(self) -> &'static str {
        match self {
            Expected::Value => "a value",
            Expected::ValueOrEnd => "a value or `]`",
            Expected::Name => "a name",
            Expected::NameOrEnd => "a name or `}`",
            Expected::CommaOrBrace => "`,` or `}`",
            Expected::CommaOrBracket => "`,` or `]`",
            Expected::End => "the end of the file",
        }
    }

    /// Returns whether a value may be next.
    pub(crate) fn is_value(self) -> bool {
        matches!(self, Expected::Value | Expected::ValueOrEnd)
    }

    /// Returns whether a name may be next.
    pub(crate) fn is_name(self) -> bool {
        matches!(self, Expected::Name | Expected::NameOrEnd)
    }
}
