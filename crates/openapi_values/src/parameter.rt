//! The styles of the Parameter and Header Objects: how a value is put into a request.
ghost use Rattle.std.specs.Prelude.{◌≡◌, refl};
ghost use Rattle.openapi_tables.specs.Tables.{path_styles, query_styles, cookie_styles, header_styles};
ghost use Rattle.openapi_values.specs.Words.{IsWordRead, path_style_word, query_style_word};
ghost use Rattle.openapi_values.specs.Words.{cookie_style_word, header_style_word};

use crate::Word;
use std::str::FromStr;

/// The style of a parameter in a path.
#[derive(Clone, Copy, Debug, PartialEq, Eq, Hash)]
pub enum PathStyle {
    /// `matrix`: path parameters of RFC 6570, as `;name=value`.
    Matrix,
    /// `label`: labels of RFC 6570, as `.value`.
    Label,
    /// `simple`: the plain values of RFC 6570, between commas. The default.
    Simple,
}

impl Default for PathStyle {
    ghost use Rattle.openapi_values.specs.declared.parameter.PathStyle.TheVariants.{Simple};

    ghost is_default = { λ style. style ≡ Simple };

    fn default() -> PathStyle {
        PathStyle::Simple
    }
}

impl Word for PathStyle {
    ghost use Rattle.openapi_values.specs.declared.parameter.PathStyle.TheVariants.{Matrix, Label, Simple};

    ghost words = { path_styles };

    ghost word_of = { path_style_word };

    ghost known = { elim [ Matrix ↦ refl | Label ↦ refl | Simple ↦ refl ] };

    fn all() -> &'static [PathStyle] {
        &[PathStyle::Matrix, PathStyle::Label, PathStyle::Simple]
    }

    fn as_str(&self) -> &'static str {
        match self {
            PathStyle::Matrix => "matrix",
            PathStyle::Label => "label",
            PathStyle::Simple => "simple",
        }
    }
}

/// Reads `matrix`, `label` or `simple`. Any other text is an error.
impl FromStr for PathStyle {
    type Err = ();

    ghost from_str_gives = { IsWordRead path_style_word path_styles };

    fn from_str(text: &str) -> Result<PathStyle, ()> {
        PathStyle::from_word(text).ok_or(())
    }
}

/// The style of a parameter in a query, or of a part of a form.
#[derive(Clone, Copy, Debug, PartialEq, Eq, Hash)]
pub enum QueryStyle {
    /// `form`: form queries of RFC 6570, as `name=value`. The default.
    Form,
    /// `spaceDelimited`: the elements of an array with spaces between them.
    SpaceDelimited,
    /// `pipeDelimited`: the elements of an array with pipes between them.
    PipeDelimited,
    /// `deepObject`: an object as one pair for each of its members.
    DeepObject,
}

impl Default for QueryStyle {
    ghost use Rattle.openapi_values.specs.declared.parameter.QueryStyle.TheVariants.{Form};

    ghost is_default = { λ style. style ≡ Form };

    fn default() -> QueryStyle {
        QueryStyle::Form
    }
}

impl Word for QueryStyle {
    ghost use Rattle.openapi_values.specs.declared.parameter.QueryStyle.TheVariants.{Form, SpaceDelimited};
    ghost use Rattle.openapi_values.specs.declared.parameter.QueryStyle.TheVariants.{PipeDelimited, DeepObject};

    ghost words = { query_styles };

    ghost word_of = { query_style_word };

    ghost known = { elim [ Form ↦ refl | SpaceDelimited ↦ refl | PipeDelimited ↦ refl | DeepObject ↦ refl ] };

    fn all() -> &'static [QueryStyle] {
        &[
            QueryStyle::Form,
            QueryStyle::SpaceDelimited,
            QueryStyle::PipeDelimited,
            QueryStyle::DeepObject,
        ]
    }

    fn as_str(&self) -> &'static str {
        match self {
            QueryStyle::Form => "form",
            QueryStyle::SpaceDelimited => "spaceDelimited",
            QueryStyle::PipeDelimited => "pipeDelimited",
            QueryStyle::DeepObject => "deepObject",
        }
    }
}

/// Reads `form`, `spaceDelimited`, `pipeDelimited` or `deepObject`. Any other text is an error.
impl FromStr for QueryStyle {
    type Err = ();

    ghost from_str_gives = { IsWordRead query_style_word query_styles };

    fn from_str(text: &str) -> Result<QueryStyle, ()> {
        QueryStyle::from_word(text).ok_or(())
    }
}

/// The style of a parameter in a cookie.
#[derive(Clone, Copy, Debug, PartialEq, Eq, Hash)]
pub enum CookieStyle {
    /// `form`: form queries of RFC 6570. The default, and the only one.
    Form,
}

impl Default for CookieStyle {
    ghost use Rattle.openapi_values.specs.declared.parameter.CookieStyle.TheVariants.{Form};

    ghost is_default = { λ style. style ≡ Form };

    fn default() -> CookieStyle {
        CookieStyle::Form
    }
}

impl Word for CookieStyle {
    ghost use Rattle.openapi_values.specs.declared.parameter.CookieStyle.TheVariants.{Form};

    ghost words = { cookie_styles };

    ghost word_of = { cookie_style_word };

    ghost known = { elim [ Form ↦ refl ] };

    fn all() -> &'static [CookieStyle] {
        &[CookieStyle::Form]
    }

    fn as_str(&self) -> &'static str {
        match self {
            CookieStyle::Form => "form",
        }
    }
}

/// Reads `form`. Any other text is an error.
impl FromStr for CookieStyle {
    type Err = ();

    ghost from_str_gives = { IsWordRead cookie_style_word cookie_styles };

    fn from_str(text: &str) -> Result<CookieStyle, ()> {
        CookieStyle::from_word(text).ok_or(())
    }
}

/// The style of a header, as a parameter or by itself.
#[derive(Clone, Copy, Debug, PartialEq, Eq, Hash)]
pub enum HeaderStyle {
    /// `simple`: the plain values of RFC 6570, between commas. The default, and the only one.
    Simple,
}

impl Default for HeaderStyle {
    ghost use Rattle.openapi_values.specs.declared.parameter.HeaderStyle.TheVariants.{Simple};

    ghost is_default = { λ style. style ≡ Simple };

    fn default() -> HeaderStyle {
        HeaderStyle::Simple
    }
}

impl Word for HeaderStyle {
    ghost use Rattle.openapi_values.specs.declared.parameter.HeaderStyle.TheVariants.{Simple};

    ghost words = { header_styles };

    ghost word_of = { header_style_word };

    ghost known = { elim [ Simple ↦ refl ] };

    fn all() -> &'static [HeaderStyle] {
        &[HeaderStyle::Simple]
    }

    fn as_str(&self) -> &'static str {
        match self {
            HeaderStyle::Simple => "simple",
        }
    }
}

/// Reads `simple`. Any other text is an error.
impl FromStr for HeaderStyle {
    type Err = ();

    ghost from_str_gives = { IsWordRead header_style_word header_styles };

    fn from_str(text: &str) -> Result<HeaderStyle, ()> {
        HeaderStyle::from_word(text).ok_or(())
    }
}
