//! The bytes of files.
use std::alloc::Global;
use std::fs::File;
use std::io;
use std::io::Read;

/// The name of standard input as an argument, and in what is printed.
pub const INPUT: &str = "-";

const INPUT_SHOWN: &str = "<stdin>";

/// Returns the name under which findings of a file are printed.
pub fn shown_name(file: &str) -> &str {
    if file == INPUT { INPUT_SHOWN } else { file }
}

/// Returns the bytes of a file, or those of standard input.
///
/// # Errors
///
/// Returns the error of the system if the file can't be opened or read, or if an allocation fails.
pub fn read_input(rt: &HostRuntime, file: &str) -> io::Result<Vec<u8>> {
    if file == INPUT {
        read_all(rt.alloc(), &mut rt.reader())
    } else {
        read_all(rt.alloc(), &mut File::open(rt, file)?)
    }
}

/// Returns the bytes that a reader has left.
fn read_all<R: Read>(alloc: Global, reader: &mut R) -> io::Result<Vec<u8>> {
    let mut bytes = Vec::new(alloc);
    reader.read_to_end(&mut bytes)?;
    Ok(bytes)
}
