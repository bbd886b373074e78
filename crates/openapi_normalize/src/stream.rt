//! A run on one input: all bytes in, one text out.
ghost use Rattle.std.specs.Prelude.{◌≡◌, OnOk, IfErr, IfOk, IfSome, false, string_bytes, true};
ghost use Rattle.std.specs.Io.KnownBytes.{Appends, Keeps, IsAtEnd};
ghost use Rattle.openapi_text.specs.Located.{IsRefusal};
ghost use Rattle.openapi_text.specs.Texts.{AppendsPart};
ghost use Rattle.openapi_normalize.specs.Normalized.{has_read, IfRefused, is_write, IsNormalized, kind_of};

use crate::failure::Failure;
use crate::normalized::normalize;
use crate::task::Task;
use openapi_node::Steps;
use openapi_text::{ReadFault, read_bytes, write_bytes};
use std::alloc::Global;
use std::io::{Read, Write};

/// Reads a reader to its end, writes the normalized text of the object in it, and returns how many members were
/// dropped.
///
/// The text is complete before its first byte is written.
///
/// # Errors
///
/// Returns [`Failure::Write`] if the writer fails, which then has a prefix of the text. On any other failure nothing
/// was written:
///
/// - [`Failure::Read`] if the reader fails or does not end,
/// - [`Failure::Memory`] if an allocation fails while the input is read,
/// - [`Failure::Refused`] with the bytes that were read if they are refused (see [`normalize`]).
pub fn run<R: Read, W: Write>(
    alloc: Global,
    task: Task,
    is_last: bool,
    reader: &mut R,
    writer: &mut W,
    steps: &mut Steps,
) -> Result<usize, Failure>
    ensures read { OnOk result (IsAtEnd (R.remaining reader.new)) }
    ensures refused { IfErr result (λ e. has_read e ≡ true → IsAtEnd (R.remaining reader.new)) }

    ensures written { IfOk result (λ dropped. IfSome (R.remaining reader.old) (λ bytes.
        (text : _) × IsNormalized task bytes text dropped
        × Appends (W.contents writer.old) (W.contents writer.new) text)) }

    // Nothing is written on any other failure.
    ensures unwritten { IfErr result (λ e. is_write e ≡ false → Keeps (W.contents writer.old) (W.contents writer.new)) }
    ensures begun { IfErr result (λ e. is_write e ≡ true → IfSome (R.remaining reader.old) (λ bytes.
        (text : _) × (dropped : _) × IsNormalized task bytes text dropped
        × AppendsPart (W.contents writer.old) (W.contents writer.new) text)) }

    ensures explained { IfErr result (λ e. IfSome (R.remaining reader.old) (λ bytes.
        IfRefused e (λ given refusal. (given ≡ bytes) × IsRefusal (kind_of task.object) bytes refusal))) }
{
    let bytes = match read_bytes(alloc, reader) {
        Ok(bytes) => bytes,
        Err(ReadFault::Reader(error)) => return Err(Failure::Read(error)),
        Err(ReadFault::Memory) => return Err(Failure::Memory),
    };
    let normalized = match normalize(alloc, task, is_last, bytes.as_slice(), steps) {
        Ok(normalized) => normalized,
        Err(refusal) => return Err(Failure::Refused(bytes, refusal)),
    };
    match write_bytes(writer, normalized.text.as_bytes()) {
        Ok(()) => Ok(normalized.dropped),
        Err(error) => Err(Failure::Write(error)),
    }
}
