//! The history that a server writes at its end.
ghost use Rattle.std.specs.Prelude.{◌≤◌, length};

use super::words::{CREATE, PAY, RETRIEVE, conn, words};
use ph_bank::{SimAcquirer, Turns};
use ph_base::Bytes;
use ph_host::{Worker, run_host};
use ph_io::{MemGate, MemSink, MemSource};
use ph_replay::Unwatched;
use std::test::Fail;

// Where the summary begins behind a history's text; at 0, where there is none.
fn summary_at(written: &[u8]) -> usize
    ensures { result ≤ length written.now }
{
    let mut at = written.len();
    for _ in 0..written.len() {
        let begins = at.min(written.len());
        if written[begins..].starts_with(b"entries ") {
            return begins;
        }
        at = begins.saturating_sub(1);
    }
    0
}

#[test]
fn a_history_of_two_workers_replays_to_its_summary(rt: HostRuntime) -> Result<(), Fail> {
    let alloc = rt.alloc();
    let mut words = words(alloc, b"2")?;
    words.push(Bytes::from_slice(alloc, b"--history")?)?;
    let mut first = MemGate::new(alloc, Vec::new(alloc));
    first.add(conn(alloc, PAY)?)?;
    first.add(conn(alloc, RETRIEVE)?)?;
    let mut second = MemGate::new(alloc, Vec::new(alloc));
    second.add(conn(alloc, CREATE)?)?;
    second.add(conn(alloc, PAY)?)?;
    let mut workers = [
        Worker::new(first, SimAcquirer::new(), Turns::new(8)),
        Worker::new(second, SimAcquirer::new(), Turns::new(8)),
    ];
    let mut output = MemSink::new(alloc, 4096, Vec::new(alloc));
    let (status, _) = run_host(&rt, alloc, words.as_slice(), &mut workers, &mut output);
    assert_eq!(rt; status, 0);
    let written = output.bytes();
    assert!(rt;
        written.starts_with(
            b"payhost-history 1\nsetup =736b5f746573745f706179686f7374 1700000000 200000 536870912\ne "
        )
    );
    let (history, summary) = written.split_at(summary_at(written));
    assert!(rt; summary.starts_with(b"entries 6\ncalls 4\nattempts 2\napproved 2\n"));

    let mut words = Vec::new(alloc);
    words.push(Bytes::from_slice(alloc, b"replay")?)?;
    let bytes = Vec::from_slice(alloc, history)?;
    let mut source = MemSource::new(bytes, 4096, Vec::new(alloc));
    let mut told = MemSink::new(alloc, 4096, Vec::new(alloc));
    let status = ph_replaying::run(
        alloc,
        words.as_slice(),
        &mut source,
        &mut told,
        &mut Unwatched,
    );
    assert_eq!(rt; status, Some(0));
    assert!(rt; told.bytes().starts_with(b"reply "));
    assert_eq!(rt; &told.bytes()[summary_at(told.bytes())..], summary);
    Ok(())
}
