//! Status codes, sets of words, formats and references.
ghost use Rattle.std.specs.Prelude.{◌≡◌, IfOk, is_ok, string_bytes};
ghost use Rattle.openapi_tables.specs.Lists.{has};
ghost use Rattle.openapi_tables.specs.Tables.{number_formats};
ghost use Rattle.openapi_values.specs.VariantOr.{format_form, variant_form};
ghost use Rattle.openapi_values.specs.Words.{number_format_word};

use openapi_values::{
    APIKeyLocation, CookieStyle, HeaderStyle, IntegerFormat, NumberFormat, PathStyle, QueryStyle,
    ReferenceOr, StatusCode, StringFormat, VariantOrUnknown, VariantOrUnknownOrEmpty, Word,
    is_false,
};
use std::alloc::{AllocError, Global};
use std::fmt;
use std::process::Abort;
use std::str::FromStr;
use std::test::Fail;

/// Why a reader refuses a text.
#[derive(Clone, Copy, Debug, PartialEq)]
enum Refusal {
    UnknownVariant,
}

/// Reads one of a set; written once for every set.
fn one_of<T: Word>(text: &str) -> Result<T, Refusal>
    ensures found { is_ok result ≡ has T.words text.now }
    ensures value { IfOk result (λ value. T.word_of value ≡ text.now) }
{
    T::from_word(text).ok_or(Refusal::UnknownVariant)
}

/// Returns the format of a number that a text gives. It shows that the conversion is exact for a format.
fn number_format(text: String) -> VariantOrUnknown<NumberFormat>
    ensures { variant_form number_format_word result ≡ format_form number_formats (string_bytes text) }
{
    text.into()
}

/// Moves an item into a box and out of it.
fn boxed_and_unboxed<T: Drop>(alloc: Global, item: T) -> Result<ReferenceOr<T>, AllocError>
    ensures { IfOk result (λ made. made ≡ ReferenceOr.Item item) }
{
    Ok(ReferenceOr::boxed_item(alloc, item)?.unbox())
}

fn debug_text<T: fmt::Debug>(alloc: Global, value: &T) -> Result<String, AllocError> {
    format!(in alloc; "{value:?}")
}

/// Checks that the words of a set are these, and that each is read as its value.
fn reads_set<T>(rt: &impl Abort, words: &[&str], values: &[T])
where
    T: Word + FromStr<Err = ()> + PartialEq + fmt::Debug,
{
    assert_eq!(rt; (T::all().len(), words.len()), (values.len(), values.len()));
    for (value, word) in values.iter().zip(words) {
        assert_eq!(rt; value.as_str(), *word);
        assert_eq!(rt; T::from_str(*word), Ok(*value));
        assert_eq!(rt; one_of(*word), Ok(*value));
    }
    for other in ["", "other", "Date", "simples", "for"] {
        assert_eq!(rt; T::from_str(other), Err(()));
        assert_eq!(rt; one_of::<T>(other), Err(Refusal::UnknownVariant));
    }
}

#[test]
fn reads_status_codes(rt: HostRuntime) -> Result<(), Fail> {
    let texts = [
        ("099", Err(())),
        ("2XY", Err(())),
        ("2é", Err(())),
        ("0XX", Ok(StatusCode::Range(0))),
        ("4xX", Ok(StatusCode::Range(4))),
        ("200", Ok(StatusCode::Code(200))),
    ];
    for (text, want) in texts {
        assert_eq!(rt; StatusCode::from_str(text), want);
    }
    Ok(())
}

/// Status codes in their order, each with its text and whether it may be written.
const CODES: [(StatusCode, &str, bool); 9] = [
    (StatusCode::Code(99), "99", false),
    (StatusCode::Code(100), "100", true),
    (StatusCode::Code(404), "404", true),
    (StatusCode::Code(999), "999", true),
    (StatusCode::Code(1000), "1000", false),
    (StatusCode::Range(0), "0XX", true),
    (StatusCode::Range(4), "4XX", true),
    (StatusCode::Range(9), "9XX", true),
    (StatusCode::Range(10), "10XX", false),
];

#[test]
fn prints_status_codes(rt: HostRuntime) -> Result<(), Fail> {
    for (code, text, writable) in CODES {
        assert_eq!(rt; code.to_string(rt.alloc())?.as_str(), text);
        assert_eq!(rt; code.is_writable(), writable);
    }
    let debug = debug_text(rt.alloc(), &StatusCode::Range(4))?;
    assert_eq!(rt; debug.as_str(), "Range(4)");
    Ok(())
}

#[test]
fn reads_sets_of_words(rt: HostRuntime) {
    reads_set(
        &rt,
        &["float", "double"],
        &[NumberFormat::Float, NumberFormat::Double],
    );
    reads_set(
        &rt,
        &["int32", "int64"],
        &[IntegerFormat::Int32, IntegerFormat::Int64],
    );
    let dates = [
        StringFormat::Date,
        StringFormat::DateTime,
        StringFormat::Password,
        StringFormat::Byte,
        StringFormat::Binary,
    ];
    reads_set(
        &rt,
        &["date", "date-time", "password", "byte", "binary"],
        &dates,
    );
    let paths = [PathStyle::Matrix, PathStyle::Label, PathStyle::Simple];
    reads_set(&rt, &["matrix", "label", "simple"], &paths);
    let queries = [
        QueryStyle::Form,
        QueryStyle::SpaceDelimited,
        QueryStyle::PipeDelimited,
        QueryStyle::DeepObject,
    ];
    reads_set(
        &rt,
        &["form", "spaceDelimited", "pipeDelimited", "deepObject"],
        &queries,
    );
    reads_set(&rt, &["form"], &[CookieStyle::Form]);
    reads_set(&rt, &["simple"], &[HeaderStyle::Simple]);
    let keys = [
        APIKeyLocation::Query,
        APIKeyLocation::Header,
        APIKeyLocation::Cookie,
    ];
    reads_set(&rt, &["query", "header", "cookie"], &keys);
}

/// Checks that a value prints as a text, and as another for programmers.
fn check_texts<T: fmt::Display + fmt::Debug>(
    rt: &impl Abort,
    alloc: Global,
    value: &T,
    text: &str,
    debug: &str,
) -> Result<(), Fail> {
    assert_eq!(rt; format!(in alloc; "{value}")?.as_str(), text);
    assert_eq!(rt; debug_text(alloc, value)?.as_str(), debug);
    Ok(())
}

#[test]
fn prints_formats(rt: HostRuntime) -> Result<(), Fail> {
    check_texts(&rt, rt.alloc(), &NumberFormat::Double, "double", "Double")?;
    check_texts(&rt, rt.alloc(), &IntegerFormat::Int64, "int64", "Int64")?;
    check_texts(
        &rt,
        rt.alloc(),
        &StringFormat::DateTime,
        "date-time",
        "DateTime",
    )?;
    let padded = format!(in rt.alloc(); "{:>7}", StringFormat::Date)?;
    assert_eq!(rt; padded.as_str(), "   date");
    Ok(())
}

#[test]
fn gives_defaults(rt: HostRuntime) {
    assert_eq!(rt; PathStyle::default(), PathStyle::Simple);
    assert_eq!(rt; QueryStyle::default(), QueryStyle::Form);
    assert_eq!(rt; CookieStyle::default(), CookieStyle::Form);
    assert_eq!(rt; HeaderStyle::default(), HeaderStyle::Simple);
    assert!(rt; is_false(&false) && !is_false(&true));
}

/// Checks that a format is a value, has a text or none, and prints as another for programmers.
fn check_format(
    rt: &impl Abort,
    alloc: Global,
    made: &VariantOrUnknownOrEmpty<StringFormat>,
    text: Option<&str>,
    want: &VariantOrUnknownOrEmpty<StringFormat>,
    debug: &str,
) -> Result<(), Fail> {
    assert_eq!(rt; made, want);
    assert_eq!(rt; made.as_str(), text);
    assert_eq!(rt; made.is_empty(), text.is_none());
    assert_eq!(rt; debug_text(alloc, made)?.as_str(), debug);
    Ok(())
}

/// Checks that a text, or none, is kept as a value that prints as another for programmers, and so is its clone.
fn check_kept(
    rt: &impl Abort,
    alloc: Global,
    text: Option<&str>,
    want: &VariantOrUnknownOrEmpty<StringFormat>,
    debug: &str,
) -> Result<(), Fail> {
    let given = match text {
        Some(text) => Some(String::from_str(alloc, text)?),
        None => None,
    };
    let made = VariantOrUnknownOrEmpty::from(given);
    check_format(rt, alloc, &made, text, want, debug)?;
    check_format(rt, alloc, &made.clone()?, text, want, debug)
}

/// Checks that a text is read as a format.
fn check_read(
    rt: &impl Abort,
    alloc: Global,
    text: &str,
    want: &VariantOrUnknownOrEmpty<StringFormat>,
) -> Result<(), Fail> {
    assert_eq!(rt; &VariantOrUnknownOrEmpty::from_text(alloc, text)?, want);
    Ok(())
}

#[test]
fn keeps_no_format_and_a_known_one(rt: HostRuntime) -> Result<(), Fail> {
    check_kept(
        &rt,
        rt.alloc(),
        None,
        &VariantOrUnknownOrEmpty::Empty,
        "Empty",
    )?;
    let date = VariantOrUnknownOrEmpty::Item(StringFormat::Date);
    check_kept(&rt, rt.alloc(), Some("date"), &date, "Item(Date)")?;
    check_read(&rt, rt.alloc(), "date", &date)?;
    assert_eq!(rt;
        VariantOrUnknownOrEmpty::<u8>::default(),
        VariantOrUnknownOrEmpty::Empty
    );
    Ok(())
}

#[test]
fn keeps_a_text_that_is_no_known_word(rt: HostRuntime) -> Result<(), Fail> {
    let yolo = VariantOrUnknownOrEmpty::Unknown(String::from_str(rt.alloc(), "yolo")?);
    check_kept(&rt, rt.alloc(), Some("yolo"), &yolo, "Unknown(\"yolo\")")?;
    check_read(&rt, rt.alloc(), "yolo", &yolo)
}

#[test]
fn converts_the_text_of_a_known_format(rt: HostRuntime) -> Result<(), Fail> {
    let known = number_format(String::from_str(rt.alloc(), "double")?);
    assert_eq!(rt; known.as_str(), "double");
    assert_eq!(rt; known, VariantOrUnknown::Item(NumberFormat::Double));
    Ok(())
}

#[test]
fn converts_a_text_that_is_no_format(rt: HostRuntime) -> Result<(), Fail> {
    let other = number_format(String::from_str(rt.alloc(), "int32")?);
    assert_eq!(rt; other.as_str(), "int32");
    let debug = debug_text(rt.alloc(), &other)?;
    assert_eq!(rt; debug.as_str(), "Unknown(\"int32\")");
    Ok(())
}

#[test]
fn clones_of_formats_equal_them(rt: HostRuntime) -> Result<(), Fail> {
    let read: VariantOrUnknown<NumberFormat> = VariantOrUnknown::from_text(rt.alloc(), "int32")?;
    assert_eq!(rt; &read.clone()?, &read);
    let other = number_format(String::from_str(rt.alloc(), "int32")?);
    assert_eq!(rt; &other, &read);
    Ok(())
}

#[test]
fn keeps_a_number_out_of_range(rt: HostRuntime) -> Result<(), Fail> {
    let number: VariantOrUnknown<u8> = String::from_str(rt.alloc(), "256")?.into();
    let text = String::from_str(rt.alloc(), "256")?;
    assert_eq!(rt; number, VariantOrUnknown::Unknown(text));
    Ok(())
}

#[test]
fn keeps_items(rt: HostRuntime) -> Result<(), Fail> {
    let item = ReferenceOr::Item(1);
    assert_eq!(rt; item.as_item(), Some(&1));
    assert_eq!(rt; item.clone()?, ReferenceOr::Item(1));
    assert_eq!(rt; debug_text(rt.alloc(), &item)?.as_str(), "Item(1)");
    assert_eq!(rt; item.into_item(), Some(1));
    assert_eq!(rt; boxed_and_unboxed(rt.alloc(), 7)?, ReferenceOr::Item(7));
    Ok(())
}

#[test]
fn keeps_references(rt: HostRuntime) -> Result<(), Fail> {
    let empty = ReferenceOr::<u8>::Reference {
        reference: String::new(rt.alloc()),
    };
    assert_eq!(rt; empty.as_item(), None);
    assert_eq!(rt; empty.into_item(), None);
    let reference = ReferenceOr::<Box<u8>>::ref_(rt.alloc(), "#/a")?.unbox();
    let same = ReferenceOr::ref_(rt.alloc(), "#/a")?;
    assert_eq!(rt; &reference, &same);
    assert_eq!(rt;
        debug_text(rt.alloc(), &reference)?.as_str(),
        "Reference { reference: \"#/a\" }"
    );
    Ok(())
}
