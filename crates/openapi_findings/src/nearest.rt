//! The known name that is nearest to an unknown one.
use crate::fields::Fields;
use openapi_faults::Row;
use std::alloc::{AllocError, Global};
use strsim::osa_distance;

/// The search for the name that is nearest to an unknown one.
#[derive(Drop)]
struct Search<'a> {
    unknown: &'a str,
    name: Option<&'static str>,
    /// The greatest distance at which a name is taken. It falls to one less than the distance of the nearest name so
    /// far.
    limit: usize,
}

/// Returns the name of a field that is nearest to an unknown one, or `None` if it is too far. A third of the name may
/// differ, and one character of a short name. (So does `cargo` with its commands.)
///
/// # Errors
///
/// Returns [`AllocError`] if an allocation fails.
pub(crate) fn nearest_name(
    alloc: Global,
    fields: &Fields,
    unknown: &str,
) -> Result<Option<&'static str>, AllocError> {
    let mut search = Search {
        unknown,
        name: None,
        limit: unknown.len().max(3) / 3,
    };
    search.compare_rows(alloc, fields.rows)?;
    search.compare_rows(alloc, fields.more_rows)?;
    if let Some(tag) = fields.tag {
        search.compare(alloc, tag)?;
    }
    Ok(search.name)
}

impl Search<'_> {
    /// Compares the names of rows.
    fn compare_rows(&mut self, alloc: Global, rows: &'static [Row]) -> Result<(), AllocError> {
        for row in rows {
            match *row {
                Row::Required(name, _)
                | Row::Optional(name, _)
                | Row::Nullable(name, _)
                | Row::Listed(name, _)
                | Row::Flag(name)
                | Row::Styled(name, _, _)
                | Row::Format(name, _) => self.compare(alloc, name)?,
                Row::Either(first, _, second, _) => {
                    self.compare(alloc, first)?;
                    self.compare(alloc, second)?;
                }
                Row::Names(_, _) => {}
            }
        }
        Ok(())
    }

    /// Compares a name.
    fn compare(&mut self, alloc: Global, name: &'static str) -> Result<(), AllocError> {
        // No name of another length by so much is near: so a long name costs nothing.
        if self.limit == 0 || name.len().abs_diff(self.unknown.len()) > self.limit {
            return Ok(());
        }
        let edits = osa_distance(alloc, self.unknown, name)?;
        if edits <= self.limit {
            self.name = Some(name);
            self.limit = edits.saturating_sub(1);
        }
        Ok(())
    }
}
