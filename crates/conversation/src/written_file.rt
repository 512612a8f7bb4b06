//! Writing the bytes of a file.

use std::fs::{OpenFile, OpenOptions, Permissions};
use std::io::{ErrorKind, Write};
use std::rt::Files;
use std::{fs, io};

/// The end of a new file's name, which begins with the name of the file that it replaces.
const NEW_SUFFIX: &str = ".towerbench-new";

/// Writes `bytes` to the file at a path. If that is a regular file, or doesn't exist, the bytes go
/// to a new file next to it, which then replaces it: so the path has the whole old file or the
/// whole new one, whatever happens. Anything else is written in place, and so is a file whose
/// folder takes no new file.
pub fn write_file<F: Files + AllocGlobal>(files: &F, path: &str, bytes: &[u8]) -> io::Result<()> {
    match fs::metadata(files, path) {
        Ok(old) if old.is_file() => replace_old(files, path, old.permissions(), bytes),
        Ok(_) => overwrite(files, path, bytes),
        Err(e) => match e.kind() {
            ErrorKind::NotFound if !is_link(files, path) => replace(files, path, None, bytes),
            // A link to nothing; or a file of the page in a browser, which has no metadata.
            ErrorKind::NotFound | ErrorKind::Unsupported => overwrite(files, path, bytes),
            _ => Err(e),
        },
    }
}

/// Replaces the regular file at a path by a new one with these permissions. If the path is a link,
/// replaces the file to which it leads.
fn replace_old<F: Files + AllocGlobal>(
    files: &F,
    path: &str,
    permissions: Permissions,
    bytes: &[u8],
) -> io::Result<()> {
    require_writable(files, path)?;
    match files.canonicalize(files.alloc(), path) {
        Ok(real) => replace(files, real.as_str(), Some(permissions), bytes),
        // An open file that no folder has, as `/dev/fd/3` can be.
        Err(e) if e.kind() == ErrorKind::NotFound => overwrite(files, path, bytes),
        Err(e) => Err(e),
    }
}

/// An error if the file at a path may not be written.
fn require_writable<F: Files>(files: &F, path: &str) -> io::Result<()> {
    OpenOptions::new().write(true).open(files, path)?;
    Ok(())
}

/// Whether a path is a link.
fn is_link<F: Files>(files: &F, path: &str) -> bool {
    fs::symlink_metadata(files, path).is_ok_and(|found| found.is_symlink())
}

/// Writes `bytes` to a new file, which replaces the one at a path, if there is one. After an error
/// that file is as it was, unless its folder takes no new file.
fn replace<F: Files + AllocGlobal>(
    files: &F,
    path: &str,
    permissions: Option<Permissions>,
    bytes: &[u8],
) -> io::Result<()> {
    let new_path = format!(in files.alloc(); "{path}{NEW_SUFFIX}")?;
    // A save that a signal ended may have left one.
    let _ = fs::remove_file(files, new_path.as_str());
    let opened = OpenOptions::new()
        .write(true)
        .create_new(true)
        .open(files, new_path.as_str());
    let file = match opened {
        Ok(file) => file,
        Err(e) if is_refused_by_folder(e.kind()) => return overwrite(files, path, bytes),
        Err(e) => return Err(e),
    };
    let replaced = match fill(file, permissions, bytes) {
        Ok(()) => fs::rename(files, new_path.as_str(), path),
        Err(e) => Err(e),
    };
    if replaced.is_err() {
        // If the new file can't be removed either, the next save to this path removes it.
        let _ = fs::remove_file(files, new_path.as_str());
    }
    replaced
}

/// Whether a file wasn't created because its folder takes no new file, or none of that name.
fn is_refused_by_folder(kind: ErrorKind) -> bool {
    matches!(
        kind,
        ErrorKind::PermissionDenied | ErrorKind::ReadOnlyFilesystem | ErrorKind::InvalidFilename
    )
}

/// Gives a new file its permissions and `bytes`, and returns once the device has them.
fn fill<W: OpenFile + Write + Drop>(
    mut file: W,
    permissions: Option<Permissions>,
    bytes: &[u8],
) -> io::Result<()> {
    if let Some(permissions) = permissions {
        file.set_permissions(permissions)?;
    }
    file.write_all(bytes)?;
    file.sync_all()
}

/// Creates or empties the file at a path, and writes `bytes` to it.
fn overwrite<F: Files>(files: &F, path: &str, bytes: &[u8]) -> io::Result<()> {
    fs::create(files, path)?.write_all(bytes)
}
