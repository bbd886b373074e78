//! The set of those names by which the kinds of schemas are distinguished that an object has.
ghost use Rattle.std.specs.Prelude.{◌≡◌, ◌==◌, bit_and};
ghost use Rattle.openapi_schema_types.specs.Masks.{mask_of};

/// The number of names by which the kinds of schemas are distinguished.
pub const NAMES: usize = 24;

// The bit of each of these names: its place in the order in which they are written, counted from 0.
const TYPE: u32 = 1 << 0;

const PATTERN: u32 = 1 << 1;

const MULTIPLE_OF: u32 = 1 << 2;

const EXCLUSIVE_MINIMUM: u32 = 1 << 3;

const EXCLUSIVE_MAXIMUM: u32 = 1 << 4;

const MINIMUM: u32 = 1 << 5;

const MAXIMUM: u32 = 1 << 6;

const PROPERTIES: u32 = 1 << 7;

const REQUIRED: u32 = 1 << 8;

const ADDITIONAL_PROPERTIES: u32 = 1 << 9;

const MIN_PROPERTIES: u32 = 1 << 10;

const MAX_PROPERTIES: u32 = 1 << 11;

const ITEMS: u32 = 1 << 12;

const MIN_ITEMS: u32 = 1 << 13;

const MAX_ITEMS: u32 = 1 << 14;

const UNIQUE_ITEMS: u32 = 1 << 15;

const ENUM: u32 = 1 << 16;

const FORMAT: u32 = 1 << 17;

const MIN_LENGTH: u32 = 1 << 18;

const MAX_LENGTH: u32 = 1 << 19;

const ONE_OF: u32 = 1 << 20;

const ALL_OF: u32 = 1 << 21;

const ANY_OF: u32 = 1 << 22;

const NOT: u32 = 1 << 23;

/// A set of these names, with one bit for each.
#[derive(Clone, Copy, Debug, PartialEq)]
pub struct Mask {
    /// The bits, that of the first name lowest.
    pub bits: u32,
}

impl Mask {
    // The names that a schema of each sort may have.
    pub(crate) const STRING: Mask = Mask {
        bits: TYPE | PATTERN | ENUM | FORMAT | MIN_LENGTH | MAX_LENGTH,
    };

    pub(crate) const NUMBER: Mask = Mask {
        bits: TYPE
            | MULTIPLE_OF
            | EXCLUSIVE_MINIMUM
            | EXCLUSIVE_MAXIMUM
            | MINIMUM
            | MAXIMUM
            | ENUM
            | FORMAT,
    };

    pub(crate) const BOOLEAN: Mask = Mask { bits: TYPE | ENUM };

    pub(crate) const OBJECT: Mask = Mask {
        bits: TYPE
            | PROPERTIES
            | REQUIRED
            | ADDITIONAL_PROPERTIES
            | MIN_PROPERTIES
            | MAX_PROPERTIES,
    };

    pub(crate) const ARRAY: Mask = Mask {
        bits: TYPE | ITEMS | MIN_ITEMS | MAX_ITEMS | UNIQUE_ITEMS,
    };

    pub(crate) const ONE_OF: Mask = Mask { bits: ONE_OF };

    pub(crate) const ALL_OF: Mask = Mask { bits: ALL_OF };

    pub(crate) const ANY_OF: Mask = Mask { bits: ANY_OF };

    pub(crate) const NOT: Mask = Mask { bits: NOT };

    pub(crate) const ANY: Mask = Mask {
        bits: (1 << 24) - 1,
    };

    /// Returns the set of the names whose flags are set. There is one flag for each name, in the order of the names.
    pub fn of_flags(flags: &[bool; NAMES]) -> Mask
        ensures { result.bits ≡ mask_of flags.now }
    {
        let mut bits = 0;
        for (place, flag) in flags.iter().enumerate() {
            bits |= u32::from(*flag) << place;
        }
        Mask { bits }
    }

    /// Returns whether each name of this set is in the other one.
    pub(crate) fn is_within(self, other: Mask) -> bool
        ensures { result ≡ (bit_and self.bits other.bits == self.bits) }
    {
        self.bits & other.bits == self.bits
    }
}
