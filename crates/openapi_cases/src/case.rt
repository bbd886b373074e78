//! Files of cases: requests, and what has to come of them.

use crate::row::Row;
use std::alloc::Global;
use std::test::Fail;

/// A case of a file.
#[derive(Drop)]
pub struct Case<'a> {
    /// The number of its first line, from 1.
    pub line: usize,
    /// Its request, which is its first line.
    pub request: &'a str,
    /// The rows of a table, which are its lines that begin with two spaces.
    pub rows: Vec<Row<'a>>,
    /// What has to come of it: its lines that begin with `= ` or `! `, each with its end.
    pub wanted: String,
}

impl<'a> Case<'a> {
    /// Returns a case without rows, of which nothing has to come.
    fn new(alloc: Global, line: usize, request: &'a str) -> Case<'a> {
        Case {
            line,
            request,
            rows: Vec::new(alloc),
            wanted: String::new(alloc),
        }
    }

    /// Adds a line below the request.
    fn add(&mut self, line: &'a str) -> Result<(), Fail> {
        match line.strip_prefix("  ") {
            Some(row) => self.rows.push(Row::of_line(row)?)?,
            None => {
                self.wanted.push_str(line)?;
                self.wanted.push('\n')?;
            }
        }
        Ok(())
    }
}

/// Returns whether a line belongs to the request above it.
fn is_below(line: &str) -> bool {
    line.starts_with("  ") || line.starts_with("= ") || line.starts_with("! ")
}

/// Returns the cases of a text, in their order. Empty lines and those that begin with `#` are ignored.
///
/// # Errors
///
/// Returns [`Fail`] if an allocation fails, or if an answer is before the first case.
pub fn cases_of(alloc: Global, text: &str) -> Result<Vec<Case<'_>>, Fail> {
    let mut cases = Vec::new(alloc);
    for (place, line) in text.lines().enumerate() {
        if line.is_empty() || line.starts_with('#') {
            continue;
        }
        if !is_below(line) {
            cases.push(Case::new(alloc, place.saturating_add(1), line))?;
        } else if let Some(case) = cases.last_mut() {
            case.add(line)?;
        } else {
            return Err(Fail::new("an answer stands before the first case"));
        }
    }
    Ok(cases)
}
