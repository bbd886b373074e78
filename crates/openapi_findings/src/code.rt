//! The kind and the severity of a finding, each as one word.
ghost use Rattle.std.specs.Prelude.{◌≡◌};
ghost use Rattle.openapi_findings.specs.Stated.{code_word, severity_of, severity_word};
ghost use Rattle.openapi_findings.specs.Stated as stated;

use std::fmt;

/// How severe a finding is.
#[derive(Clone, Copy, Debug, PartialEq, Eq)]
pub enum Severity {
    /// The document breaks a rule.
    Error,
    /// A part of the document has no effect.
    Warning,
    /// The document breaks no rule here, but a command can't do something with it.
    Note,
}

/// The kind of a finding. It prints as a word, such as `wrong-type`.
#[derive(Clone, Copy, Debug, PartialEq, Eq)]
pub enum Code {
    /// The bytes are no JSON text (RFC 8259).
    NotJson,
    /// A number is not whole, or not within 64 bits, where a length, a count or a limit of an integer is expected.
    NotWhole,
    /// The document is of another version than OpenAPI 3.0.x.
    Version,
    /// An object lacks a required member.
    MissingMember,
    /// An object lacks both of two members of which one is required.
    MissingEither,
    /// A value is of another type than the expected one.
    WrongType,
    /// A number is out of its range, or a string or a number is no status code.
    ValueNotAllowed,
    /// A string is not one of the words that are allowed.
    UnknownValue,
    /// An object has no field of that name, and the name is no extension.
    UnknownMember,
    /// A member is beside `$ref`, where it has no effect.
    BesideRef,
    /// A member has no effect, because another one excludes it.
    SecondOfTwo,
    /// A reference within the document leads to no value.
    UnresolvedReference,
    /// A name comes again in one object, so the earlier value has no effect.
    RepeatedName,
    /// A number is not whole, or not within 64 bits, where any number may be.
    Fraction,
}

impl Severity {
    /// Returns `error`, `warning` or `note`.
    pub fn as_str(self) -> &'static str
        ensures { result.now ≡ severity_word self }
    {
        match self {
            Severity::Error => "error",
            Severity::Warning => "warning",
            Severity::Note => "note",
        }
    }
}

impl Code {
    /// Returns the word of the code.
    pub fn as_str(self) -> &'static str
        ensures { result.now ≡ code_word self }
    {
        match self {
            Code::NotJson => "not-json",
            Code::NotWhole => "not-whole",
            Code::Version => "version",
            Code::MissingMember => "missing-member",
            Code::MissingEither => "missing-either",
            Code::WrongType => "wrong-type",
            Code::ValueNotAllowed => "value-not-allowed",
            Code::UnknownValue => "unknown-value",
            Code::UnknownMember => "unknown-member",
            Code::BesideRef => "beside-ref",
            Code::SecondOfTwo => "second-of-two",
            Code::UnresolvedReference => "unresolved-reference",
            Code::RepeatedName => "repeated-name",
            Code::Fraction => "fraction",
        }
    }

    /// Returns how severe the findings of the code are.
    pub fn severity(self) -> Severity
        ensures { result ≡ severity_of self }
    {
        match self {
            Code::UnknownMember
            | Code::BesideRef
            | Code::SecondOfTwo
            | Code::UnresolvedReference
            | Code::RepeatedName => Severity::Warning,
            Code::Fraction => Severity::Note,
            _ => Severity::Error,
        }
    }

    /// Returns whether the findings of the code are about a member as a whole, with its name.
    pub(crate) fn is_about_member(self) -> bool
        ensures { result ≡ stated.is_about_member self }
    {
        matches!(
            self,
            Code::UnknownMember | Code::BesideRef | Code::SecondOfTwo | Code::RepeatedName
        )
    }
}

impl fmt::Display for Severity {
    ghost use Rattle.std.specs.Prelude.{Some};
    ghost use Rattle.openapi_findings.specs.Stated.{severity_word};

    ghost output = { λ s. Some (severity_word s) };

    fn fmt<W: fmt::Write>(&self, f: &mut fmt::Formatter<W>) -> fmt::Result {
        f.write_str(self.as_str())
    }
}

impl fmt::Display for Code {
    ghost use Rattle.std.specs.Prelude.{Some};
    ghost use Rattle.openapi_findings.specs.Stated.{code_word};

    ghost output = { λ c. Some (code_word c) };

    fn fmt<W: fmt::Write>(&self, f: &mut fmt::Formatter<W>) -> fmt::Result {
        f.write_str(self.as_str())
    }
}
