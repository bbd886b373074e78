//! The words of fixed sets: formats, the styles of parameters and headers, and the parts of a request that hold an API
//! key.
ghost use Rattle.std.proofs.Common.{refl};
ghost use Rattle.std.specs.Prelude.{◌≡◌, ◌+◌, ◌≤◌, ◌*◌, true, false, IfOk, IfErr};
ghost use Rattle.openapi_node.specs.Fault.{IsMemory};
ghost use Rattle.openapi_node.specs.Tree as tree;
ghost use Rattle.openapi_node.specs.View.{shown};
ghost use Rattle.openapi_tables.specs.Kind.{one_of};
ghost use Rattle.openapi_tables.specs.Tables.{path_styles, query_styles, cookie_styles, header_styles};
ghost use Rattle.openapi_tables.specs.Tables.{number_formats, integer_formats, string_formats};
ghost use Rattle.openapi_values.specs.Words.{word_form, api_key_locations, api_key_location_word};
ghost use Rattle.openapi_values.specs.Words.{path_style_word, query_style_word, cookie_style_word};
ghost use Rattle.openapi_values.specs.Words.{header_style_word, number_format_word, integer_format_word};
ghost use Rattle.openapi_values.specs.Words.{string_format_word};
ghost use Rattle.openapi_fields.specs.Returned.{ReadAs, WrittenAs};

use crate::from_node::FromNode;
use crate::to_node::ToNode;
use openapi_node::{Cause, Expected, Fault, Node, Result, Steps, View};
use openapi_values::{
    APIKeyLocation, CookieStyle, HeaderStyle, IntegerFormat, NumberFormat, PathStyle, QueryStyle,
    StringFormat, Word,
};
use std::alloc::Global;

/// Reads a string that has to be a word of a set.
///
/// # Errors
///
/// Returns `Cause::WrongKind` if the value is no string, and `Cause::UnknownVariant` if it is no word of the set, both
/// with the empty location.
pub fn read_word<T: Word>(alloc: Global, view: &View<'_>) -> Result<T>
    ensures { ReadAs (word_form T.word_of) result (one_of T.words) (shown view.now) }
{
    match view {
        View::Text(text) => match T::from_word(text) {
            Some(word) => Ok(word),
            None => Err(Fault::new(alloc, Cause::UnknownVariant)),
        },
        _ => Err(Fault::new(alloc, Cause::WrongKind(Expected::Text))),
    }
}

/// Writes a text.
pub(crate) fn write_text(alloc: Global, text: &str) -> Result<Node>
    ensures ok { IfOk result (λ node. node ≡ tree.text text.now) }
    ensures err { IfErr result IsMemory }
{
    match String::from_str(alloc, text) {
        Ok(text) => Ok(Node::text(text)),
        Err(_) => Err(Fault::memory(alloc)),
    }
}

/// Writes a word of a set.
///
/// # Errors
///
/// Returns `Cause::Memory` with the empty location if an allocation fails.
pub fn write_word<T: Word>(alloc: Global, word: &T) -> Result<Node>
    ensures { WrittenAs (one_of T.words) (word_form T.word_of word.now) result }
{
    write_text(alloc, word.as_str())
}

impl FromNode for PathStyle {
    ghost kind = { one_of path_styles };

    ghost form_of = { word_form path_style_word };

    fn from_view(alloc: Global, view: &View<'_>, _steps: &mut Steps) -> Result<PathStyle> {
        read_word(alloc, view)
    }

    ghost well_made = { refl };
}

impl ToNode for PathStyle {
    fn to_node(&self, alloc: Global) -> Result<Node> {
        write_word(alloc, self)
    }

    ghost there = { λ x. refl };
}

impl FromNode for QueryStyle {
    ghost kind = { one_of query_styles };

    ghost form_of = { word_form query_style_word };

    fn from_view(alloc: Global, view: &View<'_>, _steps: &mut Steps) -> Result<QueryStyle> {
        read_word(alloc, view)
    }

    ghost well_made = { refl };
}

impl ToNode for QueryStyle {
    fn to_node(&self, alloc: Global) -> Result<Node> {
        write_word(alloc, self)
    }

    ghost there = { λ x. refl };
}

impl FromNode for CookieStyle {
    ghost kind = { one_of cookie_styles };

    ghost form_of = { word_form cookie_style_word };

    fn from_view(alloc: Global, view: &View<'_>, _steps: &mut Steps) -> Result<CookieStyle> {
        read_word(alloc, view)
    }

    ghost well_made = { refl };
}

impl ToNode for CookieStyle {
    fn to_node(&self, alloc: Global) -> Result<Node> {
        write_word(alloc, self)
    }

    ghost there = { λ x. refl };
}

impl FromNode for HeaderStyle {
    ghost kind = { one_of header_styles };

    ghost form_of = { word_form header_style_word };

    fn from_view(alloc: Global, view: &View<'_>, _steps: &mut Steps) -> Result<HeaderStyle> {
        read_word(alloc, view)
    }

    ghost well_made = { refl };
}

impl ToNode for HeaderStyle {
    fn to_node(&self, alloc: Global) -> Result<Node> {
        write_word(alloc, self)
    }

    ghost there = { λ x. refl };
}

impl FromNode for APIKeyLocation {
    ghost kind = { one_of api_key_locations };

    ghost form_of = { word_form api_key_location_word };

    fn from_view(alloc: Global, view: &View<'_>, _steps: &mut Steps) -> Result<APIKeyLocation> {
        read_word(alloc, view)
    }

    ghost well_made = { refl };
}

impl ToNode for APIKeyLocation {
    fn to_node(&self, alloc: Global) -> Result<Node> {
        write_word(alloc, self)
    }

    ghost there = { λ x. refl };
}

/// A format by itself: a word that is known.
impl FromNode for NumberFormat {
    ghost kind = { one_of number_formats };

    ghost form_of = { word_form number_format_word };

    fn from_view(alloc: Global, view: &View<'_>, _steps: &mut Steps) -> Result<NumberFormat> {
        read_word(alloc, view)
    }

    ghost well_made = { refl };
}

impl ToNode for NumberFormat {
    fn to_node(&self, alloc: Global) -> Result<Node> {
        write_word(alloc, self)
    }

    ghost there = { λ x. refl };
}

/// A format by itself: a word that is known.
impl FromNode for IntegerFormat {
    ghost kind = { one_of integer_formats };

    ghost form_of = { word_form integer_format_word };

    fn from_view(alloc: Global, view: &View<'_>, _steps: &mut Steps) -> Result<IntegerFormat> {
        read_word(alloc, view)
    }

    ghost well_made = { refl };
}

impl ToNode for IntegerFormat {
    fn to_node(&self, alloc: Global) -> Result<Node> {
        write_word(alloc, self)
    }

    ghost there = { λ x. refl };
}

/// A format by itself: a word that is known.
impl FromNode for StringFormat {
    ghost kind = { one_of string_formats };

    ghost form_of = { word_form string_format_word };

    fn from_view(alloc: Global, view: &View<'_>, _steps: &mut Steps) -> Result<StringFormat> {
        read_word(alloc, view)
    }

    ghost well_made = { refl };
}

impl ToNode for StringFormat {
    fn to_node(&self, alloc: Global) -> Result<Node> {
        write_word(alloc, self)
    }

    ghost there = { λ x. refl };
}
