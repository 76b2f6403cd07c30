//! Writing all of some bytes.
ghost use Rattle.ng_streams.specs.Writing.{WritesOrBeginning};

use std::io;
use std::io::{ErrorKind, Write};

/// Writes all bytes. Fails with the writer's error at the first write that fails, and with `ErrorKind::WriteZero` if
/// one accepts no byte. Then a beginning of the bytes has been written, perhaps none or all of them. No write is tried
/// again.
pub fn write_out<W: Write>(writer: &mut W, bytes: &[u8]) -> io::Result<()>
    ensures { WritesOrBeginning (W.contents writer.old) (W.contents writer.new) bytes.now result }
{
    let mut written: usize = 0;
    while written < bytes.len() {
        match writer.write(&bytes[written..]) {
            Ok(0) => return Err(io::Error::from(ErrorKind::WriteZero)),
            Ok(n) => written += n,
            Err(error) => return Err(error),
        }
    }
    Ok(())
}
