//! One table tried on a type: what has to come of each row.

use crate::row::{Mode, Row};
use std::alloc::Global;
use std::test::Fail;

/// A member of an object: its name, and its value as JSON text.
type Member<'a> = (&'a str, &'a str);

/// The extensions of each object, in no order of names, one of them null.
const SAMPLE: [Member<'static>; 3] = [("x-b", "[{\"b\":null}]"), ("x-", "7"), ("x-a", "null")];

/// A JSON text, and the answer that has to come of it where it is cleaned.
#[derive(Drop)]
pub struct Expected {
    /// The JSON text of an object.
    pub given: String,
    /// `= ` and what it is cleaned to, or `! ` and the fault that refuses it, as a line.
    pub wanted: String,
}

/// What has to come of the objects that a table defines.
#[derive(Drop)]
pub struct Table<'a> {
    alloc: Global,
    rows: &'a [Row<'a>],
    expected: Vec<Expected>,
}

/// Adds a member to the text of an object.
fn put(text: &mut String, (name, value): Member<'_>) -> Result<(), Fail> {
    text.push_str(if text.is_empty() { "{\"" } else { ",\"" })?;
    text.push_str(name)?;
    text.push_str("\":")?;
    text.push_str(value)?;
    Ok(())
}

/// Adds members to the text of an object.
fn put_all(text: &mut String, members: &[Member<'_>]) -> Result<(), Fail> {
    for member in members {
        put(text, *member)?;
    }
    Ok(())
}

/// Ends the text of an object.
fn close(text: &mut String) -> Result<(), Fail> {
    text.push_str(if text.is_empty() { "{}" } else { "}" })?;
    Ok(())
}

/// Returns the object with all rows in their order, except for others in the place of one.
fn object_with(
    alloc: Global,
    rows: &[Row<'_>],
    changed: usize,
    given: &[Member<'_>],
) -> Result<String, Fail> {
    let mut text = String::new(alloc);
    for (place, row) in rows.iter().enumerate() {
        if place == changed {
            put_all(&mut text, given)?;
        } else if matches!(row.mode, Mode::Extensions) {
            put_all(&mut text, &SAMPLE)?;
        } else {
            put(&mut text, (row.name, row.sample))?;
        }
    }
    close(&mut text)?;
    Ok(text)
}

/// Returns the object with all rows in their order.
///
/// # Errors
///
/// Returns [`Fail`] if an allocation fails.
pub fn full_object(alloc: Global, rows: &[Row<'_>]) -> Result<String, Fail> {
    object_with(alloc, rows, rows.len(), &[])
}

/// Returns the object with a name that is not known first, then extensions, and then the rows from the last to the
/// first.
fn turned_object(alloc: Global, rows: &[Row<'_>]) -> Result<String, Fail> {
    let mut text = String::new(alloc);
    put(&mut text, ("wat", "{\"x-y\":1}"))?;
    put_all(&mut text, &SAMPLE)?;
    for row in rows.iter().rev() {
        if !matches!(row.mode, Mode::Extensions) {
            put(&mut text, (row.name, row.sample))?;
        }
    }
    close(&mut text)?;
    Ok(text)
}

/// Returns whether what is read without the row differs from what is read with it: where it may be left out, and its
/// value is not the default.
fn tells_apart(row: &Row<'_>) -> bool {
    match row.mode {
        Mode::Required | Mode::OneOf | Mode::Either(_, _) | Mode::Fixed => false,
        Mode::Style(default) => default != row.sample,
        Mode::Optional | Mode::Nullable | Mode::Listed | Mode::Flag | Mode::Extensions => true,
    }
}

/// Returns the objects that lack one row, and are read as other values than the full one.
///
/// # Errors
///
/// Returns [`Fail`] if an allocation fails.
pub fn other_objects(alloc: Global, rows: &[Row<'_>]) -> Result<Vec<String>, Fail> {
    let mut others = Vec::new(alloc);
    for (place, row) in rows.iter().enumerate() {
        if tells_apart(row) {
            others.push(object_with(alloc, rows, place, &[])?)?;
        }
    }
    Ok(others)
}

/// Returns what has to come of the full object, of its rows in another order, and of each row that is left out, null or
/// of another kind.
///
/// # Errors
///
/// Returns [`Fail`] if an allocation fails.
pub fn expected_of(alloc: Global, rows: &[Row<'_>]) -> Result<Vec<Expected>, Fail> {
    let mut table = Table {
        alloc,
        rows,
        expected: Vec::new(alloc),
    };
    table.expect_order()?;
    for (place, row) in rows.iter().enumerate() {
        table.expect_missing(place, row)?;
        table.expect_null(place, row)?;
        table.expect_kind(place, row)?;
        table.expect_silent(place, row)?;
    }
    Ok(table.expected)
}

impl Table<'_> {
    /// Expects that one object is cleaned to another.
    fn cleans(&mut self, given: String, wanted: &str) -> Result<(), Fail> {
        let wanted = format!(in self.alloc; "= {wanted}\n")?;
        self.expected.push(Expected { given, wanted })?;
        Ok(())
    }

    /// Expects that the members in the place of a row are cleaned to others.
    fn gives(
        &mut self,
        place: usize,
        given: &[Member<'_>],
        wanted: &[Member<'_>],
    ) -> Result<(), Fail> {
        let given = object_with(self.alloc, self.rows, place, given)?;
        let wanted = object_with(self.alloc, self.rows, place, wanted)?;
        self.cleans(given, wanted.as_str())
    }

    /// Expects that the members in the place of a row are refused with a text.
    fn refuses(&mut self, place: usize, given: &[Member<'_>], fault: &str) -> Result<(), Fail> {
        let given = object_with(self.alloc, self.rows, place, given)?;
        let wanted = format!(in self.alloc; "! {fault}\n")?;
        self.expected.push(Expected { given, wanted })?;
        Ok(())
    }

    /// Expects that a row is refused if it has this value, since another kind is expected of it.
    fn refuses_kind(&mut self, place: usize, row: &Row<'_>, value: &str) -> Result<(), Fail> {
        let (name, word) = (row.name, row.word);
        let fault = format!(in self.alloc; "invalid type, expected {word} at #/{name}")?;
        self.refuses(place, &[(name, value)], fault.as_str())
    }

    /// Expects the full object with its rows in their order, and in another order.
    fn expect_order(&mut self) -> Result<(), Fail> {
        let full = full_object(self.alloc, self.rows)?;
        let turned = turned_object(self.alloc, self.rows)?;
        self.cleans(turned, full.as_str())?;
        let same = full.clone()?;
        self.cleans(full, same.as_str())
    }

    /// Expects a row that is left out.
    fn expect_missing(&mut self, place: usize, row: &Row<'_>) -> Result<(), Fail> {
        let name = row.name;
        match row.mode {
            Mode::Required | Mode::OneOf => {
                let fault = format!(in self.alloc; "missing field `{name}` at #")?;
                self.refuses(place, &[], fault.as_str())
            }
            Mode::Either(other, _) => {
                let fault = format!(in self.alloc; "missing field `{name}` or `{other}` at #")?;
                self.refuses(place, &[], fault.as_str())
            }
            Mode::Nullable => self.gives(place, &[], &[(name, "null")]),
            Mode::Style(default) => self.gives(place, &[], &[(name, default)]),
            Mode::Optional | Mode::Listed | Mode::Flag | Mode::Extensions => {
                self.gives(place, &[], &[])
            }
            Mode::Fixed => Ok(()),
        }
    }

    /// Expects a row that is null.
    fn expect_null(&mut self, place: usize, row: &Row<'_>) -> Result<(), Fail> {
        let null = [(row.name, "null")];
        match row.mode {
            Mode::Optional => self.gives(place, &null, &[]),
            Mode::Nullable | Mode::Extensions => self.gives(place, &null, &null),
            Mode::Required
            | Mode::OneOf
            | Mode::Listed
            | Mode::Flag
            | Mode::Style(_)
            | Mode::Either(_, _) => self.refuses_kind(place, row, "null"),
            Mode::Fixed => Ok(()),
        }
    }

    /// Expects a row of another kind.
    fn expect_kind(&mut self, place: usize, row: &Row<'_>) -> Result<(), Fail> {
        match (row.mode, row.word) {
            (Mode::Fixed, _) | (_, "any") => Ok(()),
            (_, "list") => self.refuses_kind(place, row, "{}"),
            _ => self.refuses_kind(place, row, "[]"),
        }
    }

    /// Expects what each mode adds: the value that is not written, the default, and the text that is not of the set. Of
    /// two names it tries the second one alone, and each before the other.
    fn expect_silent(&mut self, place: usize, row: &Row<'_>) -> Result<(), Fail> {
        let name = row.name;
        match row.mode {
            Mode::Listed if row.word == "list" => self.gives(place, &[(name, "[]")], &[]),
            Mode::Listed => self.gives(place, &[(name, "{}")], &[]),
            Mode::Flag => self.gives(place, &[(name, "false")], &[]),
            Mode::Style(default) => self.gives(place, &[(name, default)], &[(name, default)]),
            Mode::OneOf => {
                let fault = format!(in self.alloc; "unknown variant at #/{name}")?;
                self.refuses(place, &[(name, "\"\"")], fault.as_str())
            }
            Mode::Either(other, value) => {
                let (one, two) = ((name, row.sample), (other, value));
                self.gives(place, &[two], &[two])?;
                self.gives(place, &[one, (other, "null")], &[one])?;
                self.gives(place, &[two, (name, "null")], &[two])
            }
            Mode::Required | Mode::Optional | Mode::Nullable | Mode::Extensions | Mode::Fixed => Ok(
                (),
            ),
        }
    }
}
