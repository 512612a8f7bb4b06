//! The file to which the branches are saved.

ghost use Rattle.std.specs.Prelude.{◌≡◌, ◌⊎◌, IfErr};

use crate::fault::Fault;
use conversation::written_file::write_file;
use std::io::ErrorKind;
use std::rt::Files;

/// Writes `bytes` to the file at a path, as `write_file` does. The fault is Memory if memory runs
/// out, and otherwise Save.
pub(crate) fn save_at<F: Files + AllocGlobal>(
    files: &F,
    path: &str,
    bytes: &[u8],
) -> Result<(), Fault>
    ensures { IfErr result (λ e. (e ≡ Fault.Save) ⊎ (e ≡ Fault.Memory)) }
{
    match write_file(files, path, bytes) {
        Ok(()) => Ok(()),
        Err(e) if e.kind() == ErrorKind::OutOfMemory => Err(Fault::Memory),
        Err(_) => Err(Fault::Save),
    }
}
