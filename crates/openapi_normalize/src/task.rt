//! What a text is, and how it is printed again.
ghost use Rattle.std.specs.Prelude.{◌≡◌};
ghost use Rattle.openapi_faults.specs.Meaning as meaning;
ghost use Rattle.openapi_normalize.specs.Normalized.{kind_of};

use openapi_faults::{Kind, TableName};
use std::str::FromStr;

/// The object that a text is.
#[derive(Clone, Copy, Debug, PartialEq, Eq)]
pub enum Object {
    /// An OpenAPI Object (OpenAPI 3.0.3, section 4.7.1), a whole document.
    Document,
    /// A Schema Object (OpenAPI 3.0.3, section 4.7.24).
    Schema,
    /// A Tag Object (OpenAPI 3.0.3, section 4.7.22).
    Tag,
}

impl FromStr for Object {
    type Err = ();

    ghost use Rattle.openapi_normalize.specs.Normalized.{IsObjectOf};

    ghost from_str_gives = { IsObjectOf };

    /// Reads `document`, `schema` or `tag`.
    ///
    /// # Errors
    ///
    /// Returns `()` for any other word.
    fn from_str(word: &str) -> Result<Object, ()> {
        match word {
            "document" => Ok(Object::Document),
            "schema" => Ok(Object::Schema),
            "tag" => Ok(Object::Tag),
            _ => Err(()),
        }
    }
}

impl Object {
    /// Returns the kind of the object in the field tables.
    pub(crate) fn kind(self) -> Kind
        ensures { meaning.kind_of result ≡ kind_of self }
    {
        match self {
            Object::Document => Kind::Object(TableName::OpenAPI),
            Object::Schema => Kind::Schema,
            Object::Tag => Kind::Object(TableName::Tag),
        }
    }
}

/// What is read, and how it is printed.
#[derive(Clone, Copy, Debug, PartialEq, Eq)]
pub struct Task {
    /// The object that the text is.
    pub object: Object,
    /// Whether the value is brought to its stable form: serialized and read twice. Normalizing the output again changes nothing
    /// then.
    pub settle: bool,
    /// Whether the members of each object are in the order of their names, and not in that of the field tables.
    pub sort: bool,
    /// By how many spaces each level is indented, with a line for each item and each member. `None` for one line without spaces.
    pub indent: Option<usize>,
}
