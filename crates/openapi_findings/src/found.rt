//! Which value was found, and which ones are allowed in its place, in words.
use openapi_faults::{Kind, Limits};
use openapi_node::View;
use openapi_values::{APIKeyLocation, CookieStyle, HeaderStyle, PathStyle, QueryStyle, Word};
use std::fmt;

/// How many characters are shown of a text.
const LONGEST: usize = 40;

/// A value. It prints in a few words, whatever its size.
#[derive(Clone, Copy)]
pub(crate) struct Found<'a>(pub View<'a>);

impl fmt::Display for Found<'_> {
    fn fmt<W: fmt::Write>(&self, f: &mut fmt::Formatter<W>) -> fmt::Result {
        match self.0 {
            View::Null => f.write_str("null"),
            View::Flag(true) => f.write_str("the flag true"),
            View::Flag(false) => f.write_str("the flag false"),
            View::Whole(number) => write!(f, "the number {number}"),
            View::Text(text) => write_text(f, text),
            View::List(_) => f.write_str("a list"),
            View::Object(_) => f.write_str("an object"),
        }
    }
}

/// Writes a text in quotes, or its beginning.
fn write_text<W: fmt::Write>(f: &mut fmt::Formatter<W>, text: &str) -> fmt::Result {
    f.write_str("the text \"")?;
    write_start(f, text)?;
    f.write_str("\"")
}

/// Writes the beginning of a text.
fn write_start<W: fmt::Write>(f: &mut fmt::Formatter<W>, text: &str) -> fmt::Result {
    for c in text.chars().take(LONGEST) {
        f.write_char(c)?;
    }
    if text.chars().nth(LONGEST).is_some() {
        f.write_str("..")?;
    }
    Ok(())
}

/// A number that no node holds, as the document writes it. It prints in a few words, whatever its length.
#[derive(Clone, Copy)]
pub(crate) struct NumberText<'a>(pub &'a str);

impl fmt::Display for NumberText<'_> {
    fn fmt<W: fmt::Write>(&self, f: &mut fmt::Formatter<W>) -> fmt::Result {
        f.write_str("the number ")?;
        write_start(f, self.0)
    }
}

/// What may be in the place of a value of a kind. It prints nothing if no words or limits describe the kind.
#[derive(Clone, Copy)]
pub(crate) struct Allowed(pub Kind);

impl fmt::Display for Allowed {
    fn fmt<W: fmt::Write>(&self, f: &mut fmt::Formatter<W>) -> fmt::Result {
        match self.0 {
            Kind::Number(limits) | Kind::NumberOrNull(limits) => write_limits(f, limits),
            Kind::ParameterTag => { write_words(f, &["query", "header", "path", "cookie"]) }
            Kind::SecuritySchemeTag => write_words(
                f,
                &["apiKey", "http", "oauth2", "openIdConnect"],
            ),
            Kind::APIKeyLocation => write_all::<APIKeyLocation, W>(f),
            Kind::PathStyle => write_all::<PathStyle, W>(f),
            Kind::QueryStyle => write_all::<QueryStyle, W>(f),
            Kind::CookieStyle => write_all::<CookieStyle, W>(f),
            Kind::HeaderStyle => write_all::<HeaderStyle, W>(f),
            _ => Ok(()),
        }
    }
}

/// Writes the limits of a number.
fn write_limits<W: fmt::Write>(f: &mut fmt::Formatter<W>, limits: Limits) -> fmt::Result {
    match limits {
        Limits::Unlimited => Ok(()),
        Limits::Sizes => f.write_str("; allowed: whole numbers from 0 to 18446744073709551615"),
        Limits::Signed => f.write_str(
            "; allowed: whole numbers from -9223372036854775808 to 9223372036854775807",
        ),
    }
}

/// Writes all words of a set.
fn write_all<T: Word, W: fmt::Write>(f: &mut fmt::Formatter<W>) -> fmt::Result {
    let mut before = "; allowed: ";
    for value in T::all() {
        let word = value.as_str();
        write!(f, "{before}`{word}`")?;
        before = ", ";
    }
    Ok(())
}

/// Writes words.
fn write_words<W: fmt::Write>(f: &mut fmt::Formatter<W>, words: &[&str]) -> fmt::Result {
    let mut before = "; allowed: ";
    for word in words {
        write!(f, "{before}`{word}`")?;
        before = ", ";
    }
    Ok(())
}
