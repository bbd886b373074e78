//! All bytes of a reader, and a text that a writer takes.
ghost use Rattle.std.specs.Prelude.{◌≡◌, ◌⊎◌, IfOk, IfErr, IfSome, OnErr, OnOk};
ghost use Rattle.std.specs.Io.KnownBytes.{Appends, IsAtEnd};
ghost use Rattle.openapi_text.specs.Texts.{AppendsPart};

use crate::fault::RunFault;
use std::alloc::Global;
use std::io;
use std::io::{ErrorKind, Read, Write};

/// Why the bytes of a reader were not read.
#[derive(Debug, Drop)]
pub enum ReadFault {
    /// The reader failed, or did not end.
    Reader(io::Error),
    /// An allocation failed.
    Memory,
}

/// Returns the bytes that a reader has left.
///
/// # Errors
///
/// Returns [`ReadFault::Reader`] with the error of the reader, or [`ReadFault::Memory`] if an allocation fails.
pub fn read_bytes<R: Read>(alloc: Global, reader: &mut R) -> Result<Vec<u8>, ReadFault>
    ensures bytes { IfOk result (λ v. IfSome (R.remaining reader.old) (λ bytes. v.items ≡ bytes)) }
    ensures end { OnOk result (IsAtEnd (R.remaining reader.new)) }
{
    let mut bytes = Vec::new(alloc);
    let mut buffer = [0u8; 4096];
    for _ in 0..u64::MAX {
        let count = match reader.read(&mut buffer) {
            Ok(count) => count,
            Err(error) => return Err(ReadFault::Reader(error)),
        };
        if count == 0 {
            return Ok(bytes);
        }
        if bytes.extend_from_slice(&buffer[..count]).is_err() {
            return Err(ReadFault::Memory);
        }
    }
    Err(ReadFault::Reader(io::Error::from(ErrorKind::FileTooLarge)))
}

/// Returns the bytes that a reader has left.
///
/// # Errors
///
/// Returns [`RunFault::Read`] if the reader fails or does not end, or [`RunFault::Memory`] if an allocation fails.
pub fn read_all<R: Read>(alloc: Global, reader: &mut R) -> Result<Vec<u8>, RunFault>
    ensures bytes { IfOk result (λ v. IfSome (R.remaining reader.old) (λ bytes. v.items ≡ bytes)) }
    ensures end { OnOk result (IsAtEnd (R.remaining reader.new)) }
    ensures err { IfErr result (λ e. (e ≡ RunFault.Read) ⊎ (e ≡ RunFault.Memory)) }
{
    match read_bytes(alloc, reader) {
        Ok(bytes) => Ok(bytes),
        Err(ReadFault::Reader(_)) => Err(RunFault::Read),
        Err(ReadFault::Memory) => Err(RunFault::Memory),
    }
}

/// Writes a text whole.
///
/// # Errors
///
/// Returns the error of the writer, or `WriteZero` if it accepts nothing. It has a prefix of the text then.
pub fn write_bytes<W: Write>(writer: &mut W, text: &[u8]) -> io::Result<()>
    ensures ok { OnOk result (Appends (W.contents writer.old) (W.contents writer.new) text.now) }
    ensures err { OnErr result (AppendsPart (W.contents writer.old) (W.contents writer.new) text.now) }
{
    let mut done = 0;
    while done < text.len() {
        match writer.write(&text[done..]) {
            Ok(count) if count > 0 => done += count,
            Ok(_) => return Err(io::Error::from(ErrorKind::WriteZero)),
            Err(error) => return Err(error),
        }
    }
    Ok(())
}

/// Writes a text whole.
///
/// # Errors
///
/// Returns [`RunFault::Write`] if the writer fails or accepts nothing. It has a prefix of the text then.
pub fn write_all<W: Write>(writer: &mut W, text: &[u8]) -> Result<(), RunFault>
    ensures ok { OnOk result (Appends (W.contents writer.old) (W.contents writer.new) text.now) }
    ensures err { IfErr result (λ e. (e ≡ RunFault.Write)
        × AppendsPart (W.contents writer.old) (W.contents writer.new) text.now) }
{
    match write_bytes(writer, text) {
        Ok(()) => Ok(()),
        Err(_) => Err(RunFault::Write),
    }
}
