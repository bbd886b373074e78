//! Status codes, formats and references, as users name them at the root.

use crate::read::read_value;
use openapi_test_support::trees::write_refusal;
use openapiv3::StatusCode::{Code, Range};
use openapiv3::{
    Example, FromNode, ReferenceOr, StatusCode, StringFormat, VariantOrUnknown,
    VariantOrUnknownOrEmpty,
};
use std::test::Fail;

#[test]
fn codes_out_of_their_range_are_not_written(rt: HostRuntime) -> Result<(), Fail> {
    let rows = [
        (Code(99), "name not writable at #/99"),
        (Range(10), "name not writable at #/10XX"),
        (Code(100), "written"),
    ];
    for (code, wanted) in rows {
        assert_eq!(rt; write_refusal(&rt, &code)?.as_str(), wanted);
    }
    Ok(())
}

// Every code comes before every range, and then the smaller number first.
#[test]
fn codes_come_before_ranges(rt: HostRuntime) {
    assert!(rt; Code(999) < Range(0));
    let codes = [
        Code(99),
        Code(100),
        Code(999),
        Range(0),
        Range(4),
        Range(10),
    ];
    for (place, one) in codes.iter().enumerate() {
        for (other_place, other) in codes.iter().enumerate() {
            assert_eq!(rt;
                one.cmp(other),
                place.cmp(&other_place),
                "{one} and {other}"
            );
        }
    }
}

/// Checks that a JSON text is read as a value.
fn check_value<T: FromNode + PartialEq + Drop>(
    rt: &HostRuntime,
    text: &str,
    wanted: T,
) -> Result<(), Fail> {
    if read_value::<T>(rt, text)? != wanted {
        return Err(Fail::from("another value"));
    }
    Ok(())
}

#[test]
fn string_formats_are_read_as_known_ones(rt: HostRuntime) -> Result<(), Fail> {
    let rows = [
        (r#""date""#, StringFormat::Date),
        (r#""date-time""#, StringFormat::DateTime),
        (r#""password""#, StringFormat::Password),
        (r#""byte""#, StringFormat::Byte),
        (r#""binary""#, StringFormat::Binary),
    ];
    for (text, format) in rows {
        check_value(&rt, text, format)?;
        check_value(&rt, text, VariantOrUnknown::Item(format))?;
        check_value(&rt, text, VariantOrUnknownOrEmpty::Item(format))?;
    }
    Ok(())
}

#[test]
fn references_are_made_of_texts(rt: HostRuntime) -> Result<(), Fail> {
    let made: ReferenceOr<Example> = ReferenceOr::ref_(rt.alloc(), "#/a")?;
    let ReferenceOr::Reference { reference } = made else {
        panic!(rt; "an item");
    };
    assert_eq!(rt; reference.as_str(), "#/a");
    Ok(())
}

#[test]
fn items_come_out_of_their_boxes(rt: HostRuntime) -> Result<(), Fail> {
    let boxed = ReferenceOr::boxed_item(rt.alloc(), Example::new(rt.alloc()))?;
    assert!(rt; boxed.unbox() == ReferenceOr::Item(Example::new(rt.alloc())));
    Ok(())
}
