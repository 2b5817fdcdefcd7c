//! What words get that ask for nothing that a top call does.
ghost use Rattle.std.specs.Prelude.{◌≡◌};
ghost use Rattle.ph_host.specs.Plans.{WritesUsage};

use ph_io::{Sink, write_all};

/// Writes the usage line, and answers its status.
pub fn usage<K: Sink>(output: &mut K) -> u8
    ensures status { result ≡ 2 }
    ensures line { WritesUsage (K.sink output.old) (K.sink output.new) }
{
    match write_all(
        output,
        b"usage: payhost stdio|serve|drill|replay|sign|verify\n",
    ) {
        Ok(()) => 2,
        Err(_) => 2,
    }
}
