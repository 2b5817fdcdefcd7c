//! Writing the whole of a list of bytes.
ghost use Rattle.std.specs.Prelude.{◌≡◌, OnOk, OnErr};
ghost use Rattle.ph_io.specs.Writes.{Takes, TakesFront};

use crate::sink::{Sink, WriteFailed};

/// Writes all of the bytes, by as many writes as the sink needs; of no bytes it writes nothing and
/// is `Ok`. Where a write fails, the bytes that were written before it stand.
pub fn write_all<K: Sink>(sink: &mut K, bytes: &[u8]) -> Result<(), WriteFailed>
    ensures all { OnOk result (Takes (K.sink sink.old) (K.sink sink.new) bytes.now) }
    ensures beside { K.beside_sink sink.new ≡ K.beside_sink sink.old }
    ensures front { OnErr result (TakesFront (K.sink sink.old) (K.sink sink.new) bytes.now) }
{
    let mut at = 0;
    while at < bytes.len() {
        at += sink.write(&bytes[at..])?;
    }
    Ok(())
}
