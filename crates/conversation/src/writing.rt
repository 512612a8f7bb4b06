//! A write of given bytes in full to a stream.

ghost use Rattle.std.specs.Prelude.{◌≡◌, OnErr, OnOk, IfErr};
ghost use Rattle.std.specs.Io.KnownBytes.{Appends};
ghost use Rattle.conversation.specs.Conversations.{WrotePrefix};

use crate::fault::StreamFault;
use std::io::Write;

/// Writes all of `bytes`, in as many writes as are needed. If a write fails or takes no bytes,
/// returns the error Write; then only a prefix of `bytes` was written.
pub fn write_whole<W: Write>(writer: &mut W, bytes: &[u8]) -> Result<(), StreamFault>
    ensures written { OnOk result
        (Appends (W.contents writer.old) (W.contents writer.new) bytes.now) }
    ensures front { OnErr result
        (WrotePrefix (W.contents writer.old) (W.contents writer.new) bytes.now) }
    ensures fault { IfErr result (λ e. e ≡ StreamFault.Write) }
{
    let mut rest = bytes;
    'writes: while !rest.is_empty() {
        match writer.write(rest) {
            Ok(0) | Err(_) => return Err(StreamFault::Write),
            Ok(n) => rest = &rest[n..],
        }
    }
    Ok(())
}
