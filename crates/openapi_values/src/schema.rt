//! The formats that the Schema Object names for its types.
ghost use Rattle.std.specs.Prelude.{◌≡◌, Some, refl};
ghost use Rattle.std.specs.Fmt.{padded};
ghost use Rattle.openapi_tables.specs.Tables.{number_formats, integer_formats, string_formats};
ghost use Rattle.openapi_values.specs.Words.{IsWordRead, number_format_word, integer_format_word, string_format_word};

use crate::Word;
use std::fmt;
use std::str::FromStr;

/// The format of a number.
#[derive(Clone, Copy, Debug, PartialEq, Eq, Hash)]
pub enum NumberFormat {
    /// `float`: of single precision.
    Float,
    /// `double`: of double precision.
    Double,
}

impl Word for NumberFormat {
    ghost use Rattle.openapi_values.specs.declared.schema.NumberFormat.TheVariants.{Float, Double};

    ghost words = { number_formats };

    ghost word_of = { number_format_word };

    ghost known = { elim [ Float ↦ refl | Double ↦ refl ] };

    fn all() -> &'static [NumberFormat] {
        &[NumberFormat::Float, NumberFormat::Double]
    }

    fn as_str(&self) -> &'static str {
        match self {
            NumberFormat::Float => "float",
            NumberFormat::Double => "double",
        }
    }
}

/// Reads `float` or `double`. Any other text is an error.
impl FromStr for NumberFormat {
    type Err = ();

    ghost from_str_gives = { IsWordRead number_format_word number_formats };

    fn from_str(text: &str) -> Result<NumberFormat, ()> {
        NumberFormat::from_word(text).ok_or(())
    }
}

impl fmt::Display for NumberFormat {
    ghost output = { λ format. Some (number_format_word format) };

    ghost styled_output = { λ format spec. Some (padded spec (number_format_word format)) };

    fn fmt<W: fmt::Write>(&self, f: &mut fmt::Formatter<W>) -> fmt::Result {
        f.pad(self.as_str())
    }
}

/// The format of a whole number.
#[derive(Clone, Copy, Debug, PartialEq, Eq, Hash)]
pub enum IntegerFormat {
    /// `int32`: of 32 bits, with a sign.
    Int32,
    /// `int64`: of 64 bits, with a sign.
    Int64,
}

impl Word for IntegerFormat {
    ghost use Rattle.openapi_values.specs.declared.schema.IntegerFormat.TheVariants.{Int32, Int64};

    ghost words = { integer_formats };

    ghost word_of = { integer_format_word };

    ghost known = { elim [ Int32 ↦ refl | Int64 ↦ refl ] };

    fn all() -> &'static [IntegerFormat] {
        &[IntegerFormat::Int32, IntegerFormat::Int64]
    }

    fn as_str(&self) -> &'static str {
        match self {
            IntegerFormat::Int32 => "int32",
            IntegerFormat::Int64 => "int64",
        }
    }
}

/// Reads `int32` or `int64`. Any other text is an error.
impl FromStr for IntegerFormat {
    type Err = ();

    ghost from_str_gives = { IsWordRead integer_format_word integer_formats };

    fn from_str(text: &str) -> Result<IntegerFormat, ()> {
        IntegerFormat::from_word(text).ok_or(())
    }
}

impl fmt::Display for IntegerFormat {
    ghost output = { λ format. Some (integer_format_word format) };

    ghost styled_output = { λ format spec. Some (padded spec (integer_format_word format)) };

    fn fmt<W: fmt::Write>(&self, f: &mut fmt::Formatter<W>) -> fmt::Result {
        f.pad(self.as_str())
    }
}

/// The format of a string.
#[derive(Clone, Copy, Debug, PartialEq, Eq, Hash)]
pub enum StringFormat {
    /// `date`: a full date of RFC 3339.
    Date,
    /// `date-time`: a date with a time of RFC 3339.
    DateTime,
    /// `password`: a text that user interfaces should obscure.
    Password,
    /// `byte`: bytes in base64.
    Byte,
    /// `binary`: any bytes.
    Binary,
}

impl Word for StringFormat {
    ghost use Rattle.openapi_values.specs.declared.schema.StringFormat.TheVariants.{Date, DateTime};
    ghost use Rattle.openapi_values.specs.declared.schema.StringFormat.TheVariants.{Password, Byte, Binary};

    ghost words = { string_formats };

    ghost word_of = { string_format_word };

    ghost known = { elim [ Date ↦ refl | DateTime ↦ refl | Password ↦ refl | Byte ↦ refl | Binary ↦ refl ] };

    fn all() -> &'static [StringFormat] {
        &[
            StringFormat::Date,
            StringFormat::DateTime,
            StringFormat::Password,
            StringFormat::Byte,
            StringFormat::Binary,
        ]
    }

    fn as_str(&self) -> &'static str {
        match self {
            StringFormat::Date => "date",
            StringFormat::DateTime => "date-time",
            StringFormat::Password => "password",
            StringFormat::Byte => "byte",
            StringFormat::Binary => "binary",
        }
    }
}

/// Reads `date`, `date-time`, `password`, `byte` or `binary`. Any other text is an error.
impl FromStr for StringFormat {
    type Err = ();

    ghost from_str_gives = { IsWordRead string_format_word string_formats };

    fn from_str(text: &str) -> Result<StringFormat, ()> {
        StringFormat::from_word(text).ok_or(())
    }
}

impl fmt::Display for StringFormat {
    ghost output = { λ format. Some (string_format_word format) };

    ghost styled_output = { λ format spec. Some (padded spec (string_format_word format)) };

    fn fmt<W: fmt::Write>(&self, f: &mut fmt::Formatter<W>) -> fmt::Result {
        f.pad(self.as_str())
    }
}
