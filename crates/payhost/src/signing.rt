//! The commands on signatures of webhooks, over standard input and output.

use ph_base::Bytes;
use ph_io::{StdSink, StdSource};

/// Signs the body on standard input, or judges a header for it, where the words ask for that. None where they ask for
/// something else, and then nothing is read or written.
pub fn signing(rt: &HostRuntime, words: &[Bytes]) -> Option<u8> {
    let mut input = StdSource::new(rt.stdin());
    let mut output = StdSink::new(rt.stdout());
    ph_signing::run(rt.alloc(), words, &mut input, &mut output)
}
