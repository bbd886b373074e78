//! The errors of readers and writers, each with its cause and the location of the value that it is about.
ghost use Rattle.std.specs.Prelude.{◌≡◌, []};
ghost use Rattle.openapi_node.specs.Fault.{IsMemory, GoesUp, number_of, step_of};
ghost use Rattle.openapi_node.specs.Place.{named, indexed};

use std::alloc::{AllocError, Global};
use std::fmt;

/// A name as a reference token of a JSON Pointer (RFC 6901). It prints `~` as `~0`, and `/` as `~1`.
#[derive(Clone, Copy, Debug)]
pub struct ReferenceToken<'a>(pub &'a str);

/// A step of a location, from a value to one inside it. It prints as a reference token of a JSON Pointer (RFC 6901).
#[derive(Debug, Drop, PartialEq)]
pub enum PlaceStep {
    /// To the member of an object with that name.
    Name(String),
    /// To the item of an array at that index, from 0.
    Index(usize),
}

/// A location as a JSON Pointer (RFC 6901). It prints a `/` and the step for each step, and so nothing for the root.
#[derive(Clone, Copy, Debug)]
pub struct Pointer<'a>(pub &'a [PlaceStep]);

/// The kinds of JSON value that a reader may expect.
#[derive(Clone, Copy, Debug, PartialEq)]
pub enum Expected {
    /// A string.
    Text,
    /// `true` or `false`.
    Flag,
    /// A whole number.
    Whole,
    /// An array.
    List,
    /// An object.
    Object,
    /// A string or `null`.
    TextOrNull,
    /// A whole number or `null`.
    WholeOrNull,
    /// `true`, `false` or `null`.
    FlagOrNull,
    /// `true`, `false` or an object.
    FlagOrObject,
    /// A string or a whole number.
    TextOrWhole,
}

/// What a [`Fault`] reports. Each cause has a number, from 1 on in this order.
#[derive(Clone, Copy, Debug, PartialEq)]
pub enum Cause {
    /// The object at the location lacks a member of that name, which is required.
    Missing(&'static str),
    /// The object at the location has a member of neither name, and one of them is required.
    MissingEither(&'static str, &'static str),
    /// The value at the location is of another kind than the expected one.
    WrongKind(Expected),
    /// The value at the location is a whole number out of its range, or a string or number that is no status code.
    NotAllowed,
    /// The string at the location is none of the words that are allowed there.
    UnknownVariant,
    /// The location ends with a name that would not be read again as what it is written for, such as an extension
    /// without `x-`. It comes from writers.
    NameNotWritable,
    /// The value at the location is a number that `serde_json` returns neither as an `i64` nor as a `u64`. It comes
    /// from [`Node::from_value`](crate::Node::from_value).
    NotWhole,
    /// An allocation failed. The location is empty.
    Memory,
}

/// An error of a reader or a writer: its cause and the location of the value that it is about.
///
/// It prints as its cause, then ` at #`, then its location as a JSON Pointer.
#[derive(Debug, Drop, PartialEq)]
pub struct Fault {
    /// The location of the value that the cause is about, from the root of the value that the call was passed.
    pub place: Vec<PlaceStep>,
    /// What is wrong.
    pub cause: Cause,
}

impl Cause {
    /// Returns the number of the cause, from 1 to 8.
    pub fn number(&self) -> u8
        ensures { result ≡ number_of self.now }
    {
        match self {
            Cause::Missing(_) => 1,
            Cause::MissingEither(_, _) => 2,
            Cause::WrongKind(_) => 3,
            Cause::NotAllowed => 4,
            Cause::UnknownVariant => 5,
            Cause::NameNotWritable => 6,
            Cause::NotWhole => 7,
            Cause::Memory => 8,
        }
    }
}

/// What a reader or a writer returns: a value, or a [`Fault`].
pub type Result<T, E = Fault> = std::result::Result<T, E>;

impl Fault {
    /// Creates a fault about the root, with the empty location.
    pub fn new(alloc: Global, cause: Cause) -> Fault
        ensures place { result.place.items ≡ [] }
        ensures cause { result.cause ≡ cause }
    {
        Fault {
            place: Vec::new(alloc),
            cause,
        }
    }

    /// Creates the fault of an allocation failure ([`Cause::Memory`]), with the empty location. This allocates nothing.
    pub fn memory(alloc: Global) -> Fault
        ensures { IsMemory result }
    {
        Fault::new(alloc, Cause::Memory)
    }

    /// Returns the location as a JSON Pointer.
    pub fn pointer(&self) -> Pointer<'_>
        ensures { result.0.now ≡ self.now.place.items }
    {
        Pointer(self.place.as_slice())
    }

    /// Moves the fault up to the object that holds its root at a name, so that its location begins with the name.
    ///
    /// The fault of an allocation failure stays as it is. If an allocation fails here, the result is [`Fault::memory`].
    pub fn at_name(self, alloc: Global, name: &str) -> Fault
        ensures { GoesUp (named name.now) self result }
    {
        match String::from_str(alloc, name) {
            Ok(name) => self.below(alloc, PlaceStep::Name(name)),
            Err(_) => Fault::memory(alloc),
        }
    }

    /// Moves the fault up to the array that holds its root at an index, so that its location begins with the index.
    ///
    /// The fault of an allocation failure stays as it is. If an allocation fails here, the result is [`Fault::memory`].
    pub fn at_index(self, alloc: Global, index: usize) -> Fault
        ensures { GoesUp (indexed index) self result }
    {
        self.below(alloc, PlaceStep::Index(index))
    }

    /// Returns the fault with that step before its location.
    fn below(self, alloc: Global, step: PlaceStep) -> Fault
        ensures { GoesUp (step_of step) self result }
    {
        let Fault { mut place, cause } = self;
        if let Cause::Memory = cause {
            return Fault::memory(alloc);
        }
        match place.insert(0, step) {
            Ok(()) => Fault { place, cause },
            Err(_) => Fault::memory(alloc),
        }
    }
}

impl Expected {
    /// Returns the kind in words.
    fn word(&self) -> &'static str {
        match self {
            Expected::Text => "text",
            Expected::Flag => "flag",
            Expected::Whole => "whole number",
            Expected::List => "list",
            Expected::Object => "object",
            Expected::TextOrNull => "text or null",
            Expected::WholeOrNull => "whole number or null",
            Expected::FlagOrNull => "flag or null",
            Expected::FlagOrObject => "flag or object",
            Expected::TextOrWhole => "text or whole number",
        }
    }
}

impl fmt::Display for Cause {
    fn fmt<W: fmt::Write>(&self, f: &mut fmt::Formatter<W>) -> fmt::Result {
        match self {
            Cause::Missing(name) => write!(f, "missing field `{name}`"),
            Cause::MissingEither(first, second) => {
                write!(f, "missing field `{first}` or `{second}`")
            }
            Cause::WrongKind(expected) => {
                let word = expected.word();
                write!(f, "invalid type, expected {word}")
            }
            Cause::NotAllowed => write!(f, "invalid value"),
            Cause::UnknownVariant => write!(f, "unknown variant"),
            Cause::NameNotWritable => write!(f, "name not writable"),
            Cause::NotWhole => write!(f, "number not whole"),
            Cause::Memory => write!(f, "out of memory"),
        }
    }
}

impl fmt::Display for ReferenceToken<'_> {
    fn fmt<W: fmt::Write>(&self, f: &mut fmt::Formatter<W>) -> fmt::Result {
        for c in self.0.chars() {
            match c {
                '~' => write!(f, "~0")?,
                '/' => write!(f, "~1")?,
                _ => write!(f, "{c}")?,
            }
        }
        Ok(())
    }
}

impl fmt::Display for PlaceStep {
    fn fmt<W: fmt::Write>(&self, f: &mut fmt::Formatter<W>) -> fmt::Result {
        match self {
            PlaceStep::Index(index) => write!(f, "{index}"),
            PlaceStep::Name(name) => {
                let token = ReferenceToken(name.as_str());
                write!(f, "{token}")
            }
        }
    }
}

impl fmt::Display for Pointer<'_> {
    fn fmt<W: fmt::Write>(&self, f: &mut fmt::Formatter<W>) -> fmt::Result {
        for step in self.0.iter() {
            write!(f, "/{step}")?;
        }
        Ok(())
    }
}

impl fmt::Display for Fault {
    fn fmt<W: fmt::Write>(&self, f: &mut fmt::Formatter<W>) -> fmt::Result {
        let cause = self.cause;
        let pointer = self.pointer();
        write!(f, "{cause} at #{pointer}")
    }
}

impl std::error::Error for Fault {}
