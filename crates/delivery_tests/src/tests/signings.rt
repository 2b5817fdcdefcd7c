//! The commands `sign` and `verify`, over sources and sinks in memory.
use ph_base::{Bytes, NoMemory};
use ph_io::{MemSink, MemSource};
use ph_signing::run;
use std::alloc::Global;
use std::process::Abort;
use std::test::Fail;

/// The words, between spaces.
fn words(alloc: Global, line: &str) -> Result<Vec<Bytes>, NoMemory> {
    let mut words = Vec::new(alloc);
    for word in line.split(' ') {
        words.push(Bytes::from_slice(alloc, word.as_bytes())?)?;
    }
    Ok(words)
}

/// What the words do to a body of which the reads and writes of these numbers fail: the status, and
/// the output.
fn done(
    alloc: Global,
    line: &str,
    body: &[u8],
    reads: &[u64],
    writes: &[u64],
) -> Result<(Option<u8>, MemSink), NoMemory> {
    let words = words(alloc, line)?;
    let mut input = MemSource::new(
        Vec::from_slice(alloc, body)?,
        4096,
        Vec::from_slice(alloc, reads)?,
    );
    let mut output = MemSink::new(alloc, 4096, Vec::from_slice(alloc, writes)?);
    let status = run(alloc, &words, &mut input, &mut output);
    Ok((status, output))
}

/// The words answer this status for a body, and write this text.
fn does(rt: &impl Abort, alloc: Global, line: &str, body: &[u8], status: Option<u8>, text: &[u8]) {
    let (found, output) = done(alloc, line, body, &[], &[]).expect(rt, "no memory");
    assert_eq!(rt; found, status);
    assert_eq!(rt; output.bytes(), text);
}

/// The signature of `Hi There` at 1700000000 was made with Python's `hmac`.
#[test]
fn a_body_is_signed(rt: HostRuntime) {
    does(
        &rt,
        rt.alloc(),
        "sign whsec_test_0000000000000002 1700000000",
        b"Hi There",
        Some(0),
        b"t=1700000000,v1=b1bdac84a238035c2619506d3b1c4fcd3a04777e1c4a5bbf9708139ad237fa87\n",
    );
}

/// The header is the one of `Hi There` above.
#[test]
fn a_header_is_judged(rt: HostRuntime) {
    let alloc = rt.alloc();
    let last =
        "verify whsec_test_0000000000000002 t=1700000000,v1=b1bdac84a238035c2619506d3b1c4fcd3a04777e1c4a5bbf9708139ad237fa87 1700000300 300";
    let late =
        "verify whsec_test_0000000000000002 t=1700000000,v1=b1bdac84a238035c2619506d3b1c4fcd3a04777e1c4a5bbf9708139ad237fa87 1700000301 300";
    does(&rt, alloc, last, b"Hi There", Some(0), b"good\n");
    does(&rt, alloc, late, b"Hi There", Some(1), b"old\n");
    does(&rt, alloc, last, b"Hi there", Some(1), b"mismatch\n");
    let cut = "verify s v1=00 1 1";
    does(&rt, alloc, cut, b"", Some(1), b"malformed\n");
}

#[test]
fn a_body_of_over_65536_bytes_is_too_long(rt: HostRuntime) -> Result<(), Fail> {
    let alloc = rt.alloc();
    let fits = Vec::from_elem(alloc, b'a', 65_536)?;
    let over = Vec::from_elem(alloc, b'a', 65_537)?;
    let mismatch = b"mismatch\n".as_slice();
    let too_long = b"too long\n".as_slice();
    let line = "verify s t=1,v1=00 1 1";
    does(&rt, alloc, line, &fits, Some(1), mismatch);
    does(&rt, alloc, line, &over, Some(1), too_long);
    does(&rt, alloc, "sign s 1", &over, Some(1), too_long);
    Ok(())
}

/// The words answer this status for a body of one byte, of which the reads and writes of these numbers
/// fail, and write nothing.
fn fails(rt: &impl Abort, alloc: Global, reads: &[u64], writes: &[u64], status: u8) {
    let (found, output) = done(alloc, "sign s 1", b"a", reads, writes).expect(rt, "no memory");
    assert_eq!(rt; found, Some(status));
    assert_eq!(rt; output.bytes(), b"".as_slice());
}

#[test]
fn faults_have_their_statuses(rt: HostRuntime) {
    let alloc = rt.alloc();
    fails(&rt, alloc, &[0], &[], 3);
    // The read that would find the end.
    fails(&rt, alloc, &[1], &[], 3);
    fails(&rt, alloc, &[], &[0], 4);
}

/// The words are of no command: nothing is read or written.
fn other(rt: &impl Abort, alloc: Global, line: &str) {
    does(rt, alloc, line, b"a", None, b"");
}

#[test]
fn other_words_do_nothing(rt: HostRuntime) {
    let alloc = rt.alloc();
    other(&rt, alloc, "sign");
    other(&rt, alloc, "sign s");
    other(&rt, alloc, "sign s x");
    other(&rt, alloc, "sign s 253402300800");
    other(&rt, alloc, "sign s 1 1");
    other(&rt, alloc, "sign s h 1 1");
    other(&rt, alloc, "verify s h 1");
    other(&rt, alloc, "verify s h 1 x");
    other(&rt, alloc, "verify s h 1 1 1");
    other(&rt, alloc, "stdio s 1");
}
