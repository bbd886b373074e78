//! The rows of a table, as a case gives them.

use std::test::Fail;

/// How a row takes a missing member and null, and how it is written.
#[derive(Clone, Copy)]
pub enum Mode<'a> {
    /// `required`: refused where it is missing.
    Required,
    /// `oneOf`: one of a set of texts, and refused where it is missing.
    OneOf,
    /// `optional`: left out where it is missing or null.
    Optional,
    /// `nullable`: null where it is missing or null.
    Nullable,
    /// `listed`: a list or a map, left out where it is missing or empty, and refused where it is null.
    Listed,
    /// `flag`: a flag, left out where it is missing or false, and refused where it is null.
    Flag,
    /// `style JSON`: a style, this one where it is missing, and refused where it is null.
    Style(&'a str),
    /// `either NAME JSON`: a member that may have this one in its place. The first of the two decides, and the second is
    /// dropped.
    Either(&'a str, &'a str),
    /// `extensions`: the members whose names begin with `x-`.
    Extensions,
    /// `fixed`: it stays as it is, and serves the other rows.
    Fixed,
}

impl<'a> Mode<'a> {
    /// Returns the mode of a text.
    fn of_text(text: &'a str) -> Option<Mode<'a>> {
        match text {
            "required" => Some(Mode::Required),
            "oneOf" => Some(Mode::OneOf),
            "optional" => Some(Mode::Optional),
            "nullable" => Some(Mode::Nullable),
            "listed" => Some(Mode::Listed),
            "flag" => Some(Mode::Flag),
            "extensions" => Some(Mode::Extensions),
            "fixed" => Some(Mode::Fixed),
            _ => Mode::of_words(text),
        }
    }

    /// Returns the mode of a text of several words.
    fn of_words(text: &'a str) -> Option<Mode<'a>> {
        match text.split_once(' ')? {
            ("style", style) => Some(Mode::Style(style)),
            ("either", rest) => {
                let (name, sample) = rest.split_once(' ')?;
                Some(Mode::Either(name, sample))
            }
            _ => None,
        }
    }
}

/// A row of a table.
#[derive(Clone, Copy)]
pub struct Row<'a> {
    /// The name of the member; `x-` for the extensions.
    pub name: &'a str,
    /// How it is taken where it is missing or null.
    pub mode: Mode<'a>,
    /// The word for what is expected of it; `any` if every node is allowed.
    pub word: &'a str,
    /// The JSON text of a value that is cleaned to itself.
    pub sample: &'a str,
}

impl<'a> Row<'a> {
    /// Returns the row of a line: name, mode, word and sample with ` | ` between two of them. Extensions have neither
    /// word nor sample.
    ///
    /// # Errors
    ///
    /// Returns [`Fail`] if an allocation fails, or if the line is no row.
    pub fn of_line(line: &'a str) -> Result<Row<'a>, Fail> {
        match Row::of_parts(line) {
            Some(row) => Ok(row),
            None => Err(Fail::new("a row is no `NAME | MODE | WORD | SAMPLE`")),
        }
    }

    fn of_parts(line: &'a str) -> Option<Row<'a>> {
        let (name, rest) = line.split_once(" | ")?;
        if rest == "extensions" {
            return Some(Row {
                name,
                mode: Mode::Extensions,
                word: "any",
                sample: "",
            });
        }
        let (mode, rest) = rest.split_once(" | ")?;
        let (word, sample) = rest.split_once(" | ")?;
        Some(Row {
            name,
            mode: Mode::of_text(mode)?,
            word,
            sample,
        })
    }
}
