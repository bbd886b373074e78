//! Reports of the names that come again in one object.
ghost use Rattle.std.specs.Prelude.{◌≡◌, ◌∷◌, ◌++◌, [], IfOk, OnOk, Some, map};
ghost use Rattle.json.specs.Json.{Json};
ghost use Rattle.json.specs.Value.{items_view, members_view, value_view};
ghost use Rattle.openapi_json.specs.Ordered.{parsed};
ghost use Rattle.openapi_node.specs.Fault.{step_of};
ghost use Rattle.openapi_node.specs.Place.{named};
ghost use Rattle.openapi_faults.specs.Adds.{Adds};
ghost use Rattle.openapi_findings.specs.Repeated.{of_all, repeated_if, repeated_in, repeated_in_items, repeated_in_members, stated_of_entry};
ghost use Rattle.openapi_findings.specs.Stated.{repeated_at, statement_of};

use crate::code::Code;
use crate::report::Report;
use json::{Error, Scratch, Value};
use openapi_json::copied_place;
use openapi_map::OrderedMap;
use openapi_node::PlaceStep;
use std::alloc::{AllocError, Global};

/// Appends a report for each member of a text whose name comes earlier in its object too. Of the members of one name the last has the
/// value that counts. The text is one that was read before, so what is missing to read it again is memory.
pub(crate) fn report_repeated(
    alloc: Global,
    bytes: &[u8],
    reports: &mut Vec<Report>,
) -> Result<(), AllocError>
    ensures { OnOk result ((j : Json) → parsed bytes.now ≡ Some j
        → Adds statement_of reports.old.items reports.new.items (repeated_in [] j)) }
{
    let Ok(text) = simdutf8::compat::from_utf8(bytes) else {
        return Err(AllocError);
    };
    let mut scratch = Scratch::new(alloc);
    match Value::parse_strict(alloc, text, &mut scratch) {
        Ok(_) => Ok(()),
        Err(Error::DuplicateKey) => report_in_text(alloc, text, reports),
        Err(_) => Err(AllocError),
    }
}

/// Appends a report for each name that comes again in a text.
fn report_in_text(alloc: Global, text: &str, reports: &mut Vec<Report>) -> Result<(), AllocError>
    ensures { OnOk result ((j : Json) → parsed text.now ≡ Some j
        → Adds statement_of reports.old.items reports.new.items (repeated_in [] j)) }
{
    let mut scratch = Scratch::new(alloc);
    let Ok(value) = Value::parse(alloc, text, &mut scratch) else {
        return Err(AllocError);
    };
    let mut place = Vec::new(alloc);
    let mut repeated = reports_in(alloc, &value, &mut place)?;
    reports.append(&mut repeated)?;
    Ok(())
}

/// Returns a report for each name that comes again in the value at a location.
#[cycle(repeated)]
fn reports_in(
    alloc: Global,
    value: &Value<'_>,
    place: &mut Vec<PlaceStep>,
) -> Result<Vec<Report>, AllocError>
    ensures place { OnOk result (place.new.items ≡ place.old.items) }
    ensures reports { IfOk result (λ v. map statement_of v.items ≡ repeated_in (map step_of place.old.items) (value_view value.now)) }
{
    match value {
        Value::Array(values) => reports_in_items(alloc, values, place),
        Value::Object(members) => reports_in_members(alloc, members, place),
        _ => Ok(Vec::new(alloc)),
    }
}

/// Returns a report for each name that comes again in the items of the array at a location.
#[cycle(repeated)]
fn reports_in_items(
    alloc: Global,
    values: &Vec<Value<'_>>,
    place: &mut Vec<PlaceStep>,
) -> Result<Vec<Report>, AllocError>
    ensures place { OnOk result (place.new.items ≡ place.old.items) }
    ensures reports { IfOk result (λ v.
        map statement_of v.items ≡ repeated_in_items (map step_of place.old.items) 0 (items_view values.now.items)) }
{
    let mut reports = Vec::new(alloc);
    for index in 0..values.len() {
        let value = &values[index];
        let mut more = reports_below(alloc, PlaceStep::Index(index), value, place)?;
        reports.append(&mut more)?;
    }
    Ok(reports)
}

/// Returns a report for each name that comes again in the object at a location. Of one name the last member counts.
#[cycle(repeated)]
fn reports_in_members(
    alloc: Global,
    members: &Vec<(&str, Value<'_>)>,
    place: &mut Vec<PlaceStep>,
) -> Result<Vec<Report>, AllocError>
    ensures place { OnOk result (place.new.items ≡ place.old.items) }
    ensures reports { IfOk result (λ v.
        map statement_of v.items ≡ of_all (repeated_in_members (map step_of place.old.items) (members_view members.now.items) [])) }
{
    let mut found = OrderedMap::with_capacity(alloc, members.len())?;
    for member in members {
        let is_repeated = found.contains_key(member.0);
        let reports = reports_in_member(alloc, member.0, is_repeated, &member.1, place)?;
        let name = String::from_str(alloc, member.0)?;
        drop(found.insert(name, reports)?);
    }
    all_reports(alloc, found)
}

/// Returns a report of the member of the object at a location if its name came before, and for each name that comes again in its value.
#[cycle(repeated)]
fn reports_in_member(
    alloc: Global,
    name: &str,
    is_repeated: bool,
    value: &Value<'_>,
    place: &mut Vec<PlaceStep>,
) -> Result<Vec<Report>, AllocError>
    ensures place { OnOk result (place.new.items ≡ place.old.items) }
    ensures reports { IfOk result (λ v. map statement_of v.items
        ≡ repeated_if is_repeated (map step_of place.old.items ++ named name.now ∷ [])
        ++ repeated_in (map step_of place.old.items ++ named name.now ∷ []) (value_view value.now)) }
{
    let mut reports = reports_if(alloc, is_repeated, name, place.as_slice())?;
    let step = PlaceStep::Name(String::from_str(alloc, name)?);
    let mut more = reports_below(alloc, step, value, place)?;
    reports.append(&mut more)?;
    Ok(reports)
}

/// Returns a report for each name that comes again in the value one step below a location.
#[cycle(repeated)]
fn reports_below(
    alloc: Global,
    step: PlaceStep,
    value: &Value<'_>,
    place: &mut Vec<PlaceStep>,
) -> Result<Vec<Report>, AllocError>
    ensures place { OnOk result (place.new.items ≡ place.old.items) }
    ensures reports { IfOk result (λ v.
        map statement_of v.items ≡ repeated_in (map step_of place.old.items ++ step_of step ∷ []) (value_view value.now)) }
{
    place.push(step)?;
    let reports = reports_in(alloc, value, place)?;
    place.pop();
    Ok(reports)
}

/// Returns the reports of all entries, in their order.
fn all_reports(alloc: Global, found: OrderedMap<Vec<Report>>) -> Result<Vec<Report>, AllocError>
    ensures { IfOk result (λ v. map statement_of v.items ≡ of_all (map stated_of_entry found)) }
{
    let mut all = Vec::new(alloc);
    for (_, mut reports) in found {
        all.append(&mut reports)?;
    }
    Ok(all)
}

/// Returns a report of a member of the object at a location, if its name came before.
fn reports_if(
    alloc: Global,
    is_repeated: bool,
    name: &str,
    place: &[PlaceStep],
) -> Result<Vec<Report>, AllocError>
    ensures { IfOk result (λ v. map statement_of v.items ≡ repeated_if is_repeated (map step_of place.now ++ named name.now ∷ [])) }
{
    let mut reports = Vec::new(alloc);
    if is_repeated {
        reports.push(report_of(alloc, name, place)?)?;
    }
    Ok(reports)
}

/// Returns the report of a member of the object at a location, whose name came before.
fn report_of(alloc: Global, name: &str, place: &[PlaceStep]) -> Result<Report, AllocError>
    ensures { IfOk result (λ r. statement_of r ≡ repeated_at (map step_of place.now ++ named name.now ∷ [])) }
{
    let message = format!(in alloc; "the name `{name}` comes again in its object")?;
    let help = String::from_str(
        alloc,
        "the earlier value has no effect: remove one of the two",
    )?;
    let mut place = copied_place(alloc, place)?;
    place.push(PlaceStep::Name(String::from_str(alloc, name)?))?;
    Ok(Report {
        code: Code::RepeatedName,
        message,
        help: Some(help),
        place,
    })
}
