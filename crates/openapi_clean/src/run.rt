//! A run of the program: all bytes in, one line out.
ghost use Rattle.std.specs.Prelude.{◌≡◌, ◌≢◌, OnOk, IfErr, IfSome};
ghost use Rattle.std.specs.Io.KnownBytes.{Appends, Keeps, IsAtEnd};
ghost use Rattle.openapi_clean.specs.Commands.{kind_of};
ghost use Rattle.openapi_clean.specs.Output.{IsAnswer};
ghost use Rattle.openapi_text.specs.Texts.{AppendsPart, Explains};

use crate::answer::answer;
use crate::command::Command;
use openapi_node::Steps;
use openapi_text::{Layout, RunFault, read_all, write_all};
use std::alloc::Global;
use std::io::{Read, Write};

/// Reads a reader to its end and writes the output of a command: the normalized or stable value as one line of compact
/// JSON, or a line for each operation.
///
/// The output is complete before its first byte is written. Any error but [`RunFault::Read`] and [`RunFault::Memory`]
/// leaves the reader at its end.
///
/// # Errors
///
/// Returns [`RunFault::Write`] if the writer fails, which then has a prefix of the output. On any other error nothing
/// was written:
///
/// - [`RunFault::Read`] if the reader fails or does not end,
/// - [`RunFault::NotJson`] if the bytes are not JSON,
/// - [`RunFault::Refused`] if a number is not whole or the value does not conform,
/// - [`RunFault::Memory`] if an allocation fails.
pub fn run<R: Read, W: Write>(
    alloc: Global,
    command: Command,
    reader: &mut R,
    writer: &mut W,
    steps: &mut Steps,
) -> Result<(), RunFault>
    ensures read { OnOk result (IsAtEnd (R.remaining reader.new)) }
    ensures refused { IfErr result (λ e. e ≢ RunFault.Read → e ≢ RunFault.Memory
        → IsAtEnd (R.remaining reader.new)) }

    ensures written { OnOk result (IfSome (R.remaining reader.old) (λ bytes.
        (line : _) × IsAnswer command bytes line
        × Appends (W.contents writer.old) (W.contents writer.new) line)) }

    // Nothing is written on any other failure.
    ensures unwritten { IfErr result (λ e. e ≢ RunFault.Write
        → Keeps (W.contents writer.old) (W.contents writer.new)) }
    ensures begun { IfErr result (λ e. e ≡ RunFault.Write → IfSome (R.remaining reader.old) (λ bytes.
        (line : _) × IsAnswer command bytes line
        × AppendsPart (W.contents writer.old) (W.contents writer.new) line)) }

    ensures explained { IfErr result (λ e. e ≢ RunFault.Read → e ≢ RunFault.Write
        → IfSome (R.remaining reader.old) (λ bytes. Explains Layout.ByName (kind_of command) bytes e)) }
{
    let bytes = read_all(alloc, reader)?;
    let line = answer(alloc, command, bytes, steps)?;
    write_all(writer, line.as_bytes())
}
