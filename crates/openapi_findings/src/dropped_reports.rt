//! Reports of the members that have no effect.
ghost use Rattle.std.specs.Prelude.{◌≡◌, IfOk, OnOk};
ghost use Rattle.openapi_faults.specs.Adds.{Adds};
ghost use Rattle.openapi_faults.specs.Dropped.{dropped_of};
ghost use Rattle.openapi_findings.specs.Stated.{dropped_stated, losses_in, reason_code, statement_of};

use crate::code::Code;
use crate::fields::{Fields, fields_of};
use crate::kind_at::{DOCUMENT, asked_at};
use crate::nearest::nearest_name;
use crate::report::Report;
use openapi_faults::{Class, DropReason, Dropped, dropped_members};
use openapi_node::{Node, PlaceStep, Steps, View};
use std::alloc::{AllocError, Global};

/// Appends a report for each member that has no effect.
pub(crate) fn report_dropped(
    alloc: Global,
    document: &Node,
    reports: &mut Vec<Report>,
    steps: &mut Steps,
) -> Result<(), AllocError>
    ensures { OnOk result (Adds statement_of reports.old.items reports.new.items (losses_in document.now)) }
{
    for dropped in dropped_members(alloc, DOCUMENT, document, steps)? {
        let report = report_of(alloc, document, dropped, steps)?;
        reports.push(report)?;
    }
    Ok(())
}

/// Returns the report of a member that has no effect.
fn report_of(
    alloc: Global,
    document: &Node,
    dropped: Dropped,
    steps: &mut Steps,
) -> Result<Report, AllocError>
    ensures { IfOk result (λ r. statement_of r ≡ dropped_stated (dropped_of dropped)) }
{
    let Dropped { place, why } = dropped;
    let (above, name) = split(place.as_slice());
    let message = message_of(alloc, name, why)?;
    let fields = fields_at(document, above, steps);
    let help = help_for(alloc, &fields, name, why)?;
    Ok(Report {
        code: code_of(why),
        message,
        help,
        place,
    })
}

/// Returns the code of the members that are dropped for a reason.
fn code_of(why: DropReason) -> Code
    ensures { result ≡ reason_code why }
{
    match why {
        DropReason::UnknownMember => Code::UnknownMember,
        DropReason::SecondOfTwo => Code::SecondOfTwo,
        DropReason::BesideReference => Code::BesideRef,
    }
}

/// Splits the location of a member into that of its object and its name.
fn split(place: &[PlaceStep]) -> (&[PlaceStep], &str) {
    match place {
        [above @ .., PlaceStep::Name(name)] => (above, name.as_str()),
        _ => (place, ""),
    }
}

/// Returns the fields that the object at a location may have.
fn fields_at(document: &Node, place: &[PlaceStep], steps: &mut Steps) -> Option<Fields> {
    let asked = asked_at(document, place, steps)?;
    match asked.node.open(steps) {
        View::Object(members) => Some(fields_of(asked.kind, members, steps)),
        _ => None,
    }
}

/// Returns what is wrong with a member of a name.
fn message_of(alloc: Global, name: &str, why: DropReason) -> Result<String, AllocError> {
    match why {
        DropReason::UnknownMember => format!(in alloc; "unknown member `{name}`"),
        DropReason::SecondOfTwo => format!(in alloc; "member `{name}` has no effect"),
        DropReason::BesideReference => {
            format!(in alloc; "member `{name}` has no effect beside `$ref`")
        }
    }
}

/// Returns what to do about a member of a name.
fn help_for(
    alloc: Global,
    fields: &Option<Fields>,
    name: &str,
    why: DropReason,
) -> Result<Option<String>, AllocError> {
    match why {
        DropReason::BesideReference => {
            let help = String::from_str(
                alloc,
                "remove it, or move it to the value that `$ref` leads to",
            )?;
            Ok(Some(help))
        }
        DropReason::SecondOfTwo => other_help(alloc, fields, name),
        DropReason::UnknownMember => unknown_help(alloc, fields, name),
    }
}

/// Returns what to do about the second of two members of which one excludes the other.
fn other_help(
    alloc: Global,
    fields: &Option<Fields>,
    name: &str,
) -> Result<Option<String>, AllocError> {
    let Some(fields) = fields else {
        return Ok(None);
    };
    let Some(other) = fields.other_of(name) else {
        return Ok(None);
    };
    let help = format!(in alloc; "`{other}` comes first and excludes it: remove one of the two")?;
    Ok(Some(help))
}

/// Returns what to do about a member of an unknown name.
fn unknown_help(
    alloc: Global,
    fields: &Option<Fields>,
    name: &str,
) -> Result<Option<String>, AllocError> {
    let Some(fields) = fields else {
        return Ok(None);
    };
    if let Some(near) = nearest_name(alloc, fields, name)? {
        let help = format!(in alloc; "did you mean `{near}`?")?;
        return Ok(Some(help));
    }
    let help = String::from_str(alloc, class_help(fields.class()))?;
    Ok(Some(help))
}

/// Returns which names there may be beside those of the fields.
fn class_help(class: Option<Class>) -> &'static str {
    match class {
        Some(Class::PathNames) =>
            "the name of a path begins with `/`, and that of an extension with `x-`",
        Some(Class::StatusNames) => {
            "the name of a response is a status code, a range such as `4XX`, or `default`"
        }
        Some(Class::Extensions | Class::CallbackNames) => {
            "remove it, or begin its name with `x-` to make it an extension"
        }
        None => "remove it",
    }
}
