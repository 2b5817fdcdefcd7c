//! The command that enters a history's text anew, over standard input and output.

use crate::meter::Meter;
use ph_base::Bytes;
use ph_io::{StdSink, StdSource};

/// Enters the history on standard input anew and tells of it, where the words ask for that. None where they ask for
/// something else, and then nothing is read or written. How far it is is told on standard error, where that is a terminal.
pub fn replaying(rt: &HostRuntime, words: &[Bytes]) -> Option<u8> {
    let mut input = StdSource::new(rt.stdin());
    let mut output = StdSink::new(rt.stdout());
    let mut meter = Meter::new(rt);
    ph_replaying::run(rt.alloc(), words, &mut input, &mut output, &mut meter)
}
