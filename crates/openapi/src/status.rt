//! Exit statuses. Of several files the highest counts.

/// There are errors, or warnings that are denied; or a file would change.
pub const FOUND: u8 = 1;

/// A file is no JSON.
pub const NOT_JSON: u8 = 2;

/// The arguments are wrong.
pub const WRONG_ARGUMENTS: u8 = 2;

/// Reading, writing or an allocation failed.
pub const FAILED: u8 = 3;
