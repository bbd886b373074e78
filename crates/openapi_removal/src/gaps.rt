//! Which ranges of a text are left out, so that some members are gone.
ghost use Rattle.std.specs.Prelude.{◌≡◌, [], IfOk};

use crate::below::{below_item, by_index};
use crate::cut::Gap;
use crate::fault::Failure;
use crate::plan::plans_of;
use json::{MAX_DEPTH, Reader, Scratch, Value};
use openapi_node::PlaceStep;
use std::alloc::Global;

/// A text, and the ranges of it that are left out so far.
#[derive(Drop)]
struct Cutter<'t> {
    text: &'t [u8],
    gaps: Vec<Gap>,
    /// Where the last range ends.
    end: usize,
}

/// Returns the ranges of a text that are left out, so that it is without the members at some locations. `value` is that of the text.
///
/// Between two members a range begins and ends with a name. Behind the last member that stays it begins where that ends, so the white
/// space before the closing brace stays. An object of which no member stays becomes `{}`.
pub(crate) fn gaps_of(
    alloc: Global,
    text: &str,
    value: &Value<'_>,
    places: &[&[PlaceStep]],
) -> Result<Vec<Gap>, Failure>
    ensures { places.now ≡ [] → IfOk result (λ v. v.items ≡ []) }
{
    if places.is_empty() {
        return Ok(Vec::new(alloc));
    }
    let mut scratch = Scratch::new(alloc);
    let mut reader = Reader::new(text, &mut scratch)?;
    let mut cutter = Cutter {
        text: text.as_bytes(),
        gaps: Vec::new(alloc),
        end: 0,
    };
    cut_value(alloc, value, places, &mut reader, &mut cutter)?;
    let Cutter {
        text: _,
        gaps,
        end: _,
    } = cutter;
    Ok(gaps)
}

/// Leaves the members at some locations of the next value out.
#[cycle(cut)]
fn cut_value(
    alloc: Global,
    value: &Value<'_>,
    places: &[&[PlaceStep]],
    reader: &mut Reader<'_>,
    cutter: &mut Cutter<'_>,
) -> Result<(), Failure> {
    if places.is_empty() {
        return pass(reader);
    }
    match value {
        Value::Null | Value::Bool(_) | Value::Number(_) | Value::String(_) => pass(reader),
        Value::Array(values) => cut_items(alloc, values, places, reader, cutter),
        Value::Object(members) => cut_members(alloc, members, places, reader, cutter),
    }
}

/// Leaves the members at some locations of the next value out, which is an array.
#[cycle(cut)]
fn cut_items(
    alloc: Global,
    values: &Vec<Value<'_>>,
    places: &[&[PlaceStep]],
    reader: &mut Reader<'_>,
    cutter: &mut Cutter<'_>,
) -> Result<(), Failure> {
    let groups = by_index(alloc, places)?;
    reader.next();
    for i in 0..values.len() {
        let inside = below_item(&groups, i, &[]);
        cut_value(alloc, &values[i], inside, reader, cutter)?;
    }
    reader.next();
    Ok(())
}

/// Leaves the members at some locations of the next value out, which is an object.
#[cycle(cut)]
fn cut_members(
    alloc: Global,
    members: &Vec<(&str, Value<'_>)>,
    places: &[&[PlaceStep]],
    reader: &mut Reader<'_>,
    cutter: &mut Cutter<'_>,
) -> Result<(), Failure> {
    let plans = plans_of(alloc, members, places)?;
    let mut removed_from = None;
    let mut has_kept = false;
    reader.next();
    for i in 0..members.len() {
        let start = reader.offset();
        reader.next();
        match &plans[i] {
            None => {
                pass(reader)?;
                removed_from = removed_from.or(Some(start));
            }
            Some(inside) => {
                if let Some(from) = removed_from.take() {
                    cutter.leave_out(from, start)?;
                }
                cut_value(alloc, &members[i].1, inside.as_slice(), reader, cutter)?;
                has_kept = true;
            }
        }
    }
    let close = reader.offset();
    reader.next();
    match removed_from {
        Some(from) => cutter.leave_out_last(from, has_kept, close),
        None => Ok(()),
    }
}

/// Passes over the next value.
fn pass(reader: &mut Reader<'_>) -> Result<(), Failure> {
    match reader.skip_value(MAX_DEPTH) {
        Ok(()) => Ok(()),
        Err(_) => Err(Failure::Internal),
    }
}

impl Cutter<'_> {
    /// Leaves the bytes from an offset to another one out, which are behind those that are left out so far.
    fn leave_out(&mut self, start: usize, end: usize) -> Result<(), Failure> {
        let Some(kept) = start.checked_sub(self.end) else {
            return Err(Failure::Internal);
        };
        let Some(left_out) = end.checked_sub(start) else {
            return Err(Failure::Internal);
        };
        self.gaps.push(Gap { kept, left_out })?;
        self.end = end;
        Ok(())
    }

    /// Leaves the last members of an object out. The first of them begins at an offset, and the closing brace is at `close`.
    fn leave_out_last(&mut self, from: usize, has_kept: bool, close: usize) -> Result<(), Failure> {
        let end = if has_kept {
            self.end_before(close)
        } else {
            close
        };
        self.leave_out(self.end_before(from), end)
    }

    /// Returns where the token before an offset ends.
    fn end_before(&self, offset: usize) -> usize {
        let mut end = offset.min(self.text.len());
        while end > 0 && matches!(self.text[end - 1], b' ' | b'\t' | b'\n' | b'\r' | b',') {
            end -= 1;
        }
        end
    }
}
