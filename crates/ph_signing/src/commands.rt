//! What the commands do.
ghost use Rattle.std.specs.Prelude.{◌≡◌, [], ◌∷◌, IfOk};
ghost use Rattle.ph_sign.specs.Signatures.{signature_header};
ghost use Rattle.ph_sign.specs.Verdicts.{verdict_of};
ghost use Rattle.ph_signing.specs.Commands.{Does, Prints, Refuses, Signs, Verifies, line, status_of, word_of};
ghost use Rattle.ph_signing.specs.Words.{asked_by};

use crate::body::{BodyFault, gather};
use crate::words::{Times, sign_moment, verify_times};
use ph_base::{Bytes, NoMemory};
use ph_io::{Sink, Source, write_all};
use ph_sign::{Verdict, header, verify};
use std::alloc::Global;
use std::slice;

// Writes a line, and answers this status, or 4 where a write failed.
fn print<K: Sink>(output: &mut K, text: &[u8], status: u8) -> u8
    ensures { Prints (K.sink output.old) (K.sink output.new) text.now status result }
{
    match write_all(output, text) {
        Ok(()) => status,
        Err(_) => 4,
    }
}

// Says why there is no body.
fn refuse<K: Sink>(output: &mut K, fault: BodyFault) -> u8
    ensures { Refuses (K.sink output.old) (K.sink output.new) fault result }
{
    match fault {
        BodyFault::TooLong => print(output, b"too long\n", 1),
        BodyFault::ReadFault => 3,
        BodyFault::NoMemory => 6,
    }
}

// The line of a verdict.
fn word(verdict: Verdict) -> &'static [u8]
    ensures { result.now ≡ line (word_of verdict) }
{
    match verdict {
        Verdict::Good => b"good\n",
        Verdict::Malformed => b"malformed\n",
        Verdict::Mismatch => b"mismatch\n",
        Verdict::Old => b"old\n",
    }
}

// The status of a verdict.
fn status(verdict: Verdict) -> u8
    ensures { result ≡ status_of verdict }
{
    match verdict {
        Verdict::Good => 0,
        Verdict::Malformed | Verdict::Mismatch | Verdict::Old => 1,
    }
}

// The line of the header of a body.
fn header_line(alloc: Global, secret: &Bytes, t: u64, body: &[u8]) -> Result<Vec<u8>, NoMemory>
    ensures { IfOk result (λ text. text.items ≡ line (signature_header (secret.now ∷ []) t body.now)) }
{
    let mut text = header(alloc, slice::from_ref(secret), t, body)?.into_vec();
    text.push(b'\n')?;
    Ok(text)
}

// Writes the header of the body that the input gives.
fn run_sign<S: Source, K: Sink>(
    alloc: Global,
    secret: &Bytes,
    t: u64,
    input: &mut S,
    output: &mut K,
) -> u8
    ensures { Signs secret.now t (S.source input.old) (S.source input.new) (K.sink output.old) (K.sink output.new) result }
{
    match gather(alloc, input) {
        Ok(body) => match header_line(alloc, secret, t, body.as_slice()) {
            Ok(text) => print(output, &text, 0),
            Err(NoMemory) => 6,
        },
        Err(fault) => refuse(output, fault),
    }
}

// The verdict on a header for a body.
fn verdict(header: &Bytes, secret: &Bytes, body: &[u8], times: Times) -> Verdict
    ensures { result ≡ verdict_of header.now secret.now body.now times.now times.tolerance }
{
    let header = header.as_slice();
    let secret = secret.as_slice();
    verify(header, secret, body, times.now, times.tolerance)
}

// Writes the verdict on the header for the body that the input gives.
fn run_verify<S: Source, K: Sink>(
    alloc: Global,
    secret: &Bytes,
    header: &Bytes,
    times: Times,
    input: &mut S,
    output: &mut K,
) -> u8
    ensures { Verifies secret.now header.now times.now times.tolerance (S.source input.old) (S.source input.new) (K.sink output.old) (K.sink output.new) result }
{
    match gather(alloc, input) {
        Ok(body) => {
            let found = verdict(header, secret, body.as_slice(), times);
            print(output, word(found), status(found))
        }
        Err(fault) => refuse(output, fault),
    }
}

/// Does what the words ask for, without the program's own name, where they are those of one of the
/// commands, and answers the exit status; none where they aren't, and then nothing was read or written.
///
/// `sign SECRET T` reads a body to the end of the input, at most 65,536 bytes, and writes its signature
/// header under the secret at the moment `T`, seconds since 1970, at most 253402300799. `verify SECRET
/// HEADER NOW TOLERANCE` reads a body so and writes what the header is worth at the moment `NOW`, where
/// a signature may be `TOLERANCE` seconds old: `good`, `malformed`, `mismatch` or `old`. Each is a line
/// of its own. The status is
///
/// | status | where |
/// |---|---|
/// | 0 | the header was written, or the verdict is `good` |
/// | 1 | the verdict is another; or the body has more than 65,536 bytes: the output is `too long` |
/// | 3 | a read failed |
/// | 4 | a write failed |
/// | 6 | there was no memory |
pub fn run<S: Source, K: Sink>(
    alloc: Global,
    words: &[Bytes],
    input: &mut S,
    output: &mut K,
) -> Option<u8>
    ensures { Does (asked_by words.now) (S.source input.old) (S.source input.new) (K.sink output.old) (K.sink output.new) result }
{
    match words {
        [word, secret, t] => match sign_moment(word.as_slice(), t.as_slice()) {
            Some(t) => Some(run_sign(alloc, secret, t, input, output)),
            None => None,
        },
        [word, secret, header, now, tolerance] => match verify_times(
            word.as_slice(),
            now.as_slice(),
            tolerance.as_slice(),
        ) {
            Some(times) => Some(run_verify(alloc, secret, header, times, input, output)),
            None => None,
        },
        [] | [_] | [_, _] | [_, _, _, _] | [_, _, _, _, _, _, ..] => None,
    }
}
