//! Why a run printed no text.
use openapi_text::Refusal;
use std::io;

/// Why a run printed no whole text.
#[derive(Debug, Drop)]
pub enum Failure {
    /// The reader failed, or did not end.
    Read(io::Error),
    /// The writer failed, or took nothing.
    Write(io::Error),
    /// An allocation failed while the text was read.
    Memory,
    /// The bytes that were read are refused.
    Refused(Vec<u8>, Refusal),
}
