//! Files whose content is replaced as a whole.
use std::fs::File;
use std::io::{ErrorKind, Write};
use std::{fs, io};

/// How many names are tried for a temporary file.
const TRIES: usize = 100;

/// Replaces the content of a file, or creates it.
///
/// The content is written to a temporary file beside it, which then gets its name, so a failure leaves the file as it
/// was. The file keeps its permissions, and a symbolic link stays one. A file that is not a regular file, such as
/// `/dev/null`, is written directly.
///
/// # Errors
///
/// Returns the error of the system.
pub fn replace_file(rt: &HostRuntime, file: &str, content: &[u8]) -> io::Result<()> {
    let path = match fs::canonicalize(rt, file) {
        Ok(path) => path,
        Err(error) if error.kind() == ErrorKind::NotFound => {
            return replace_through_temporary(rt, file, content);
        }
        Err(error) => return Err(error),
    };
    if !fs::metadata(rt, path.as_str())?.is_file() {
        return File::create(rt, path.as_str())?.write_all(content);
    }
    replace_through_temporary(rt, path.as_str(), content)
}

/// Writes a temporary file beside a file, and gives it the name of that.
fn replace_through_temporary(rt: &HostRuntime, file: &str, content: &[u8]) -> io::Result<()> {
    let (temporary, mut written) = create_beside(rt, file)?;
    let replaced = fill_and_rename(rt, &mut written, temporary.as_str(), file, content);
    if replaced.is_err() {
        // The first error counts, and the temporary file may be gone.
        let _removed = fs::remove_file(rt, temporary.as_str());
    }
    replaced
}

/// Creates an empty file beside another one, and returns its path too.
fn create_beside(rt: &HostRuntime, file: &str) -> io::Result<(String, File)> {
    for number in 0..TRIES {
        let path = format!(in rt.alloc(); "{file}.{number}.tmp")?;
        match File::create_new(rt, path.as_str()) {
            Ok(created) => return Ok((path, created)),
            Err(error) if error.kind() == ErrorKind::AlreadyExists => {}
            Err(error) => return Err(error),
        }
    }
    Err(io::Error::from(ErrorKind::AlreadyExists))
}

/// Writes the content to the temporary file, and gives it the permissions and the name of a file.
fn fill_and_rename(
    rt: &HostRuntime,
    written: &mut File,
    temporary: &str,
    file: &str,
    content: &[u8],
) -> io::Result<()> {
    written.write_all(content)?;
    if let Ok(metadata) = fs::metadata(rt, file) {
        written.set_permissions(metadata.permissions())?;
    }
    written.sync_all()?;
    fs::rename(rt, temporary, file)
}
