//! Two workers at once.
use super::link::Waiting;
use super::told::Telling;
use super::words::{CREATE, PAY, conn, words};
use ph_bank::Turns;
use ph_host::{Worker, WorkerEnd, run_host};
use ph_io::{End, MemGate, MemSink};
use std::sync::atomic::AtomicBool;
use std::test::Fail;

// The first worker's acquirer rules only when the second worker's reply has been written. A server that takes the second
// connection after the first has ended gives up after 100,000 polls, and answers the payment by 500.
#[test]
fn two_connections_are_served_at_once(rt: HostRuntime) -> Result<(), Fail> {
    let alloc = rt.alloc();
    let words = words(alloc, b"2")?;
    let written = AtomicBool::new(false);
    let mut first = MemGate::new(alloc, Vec::new(alloc));
    first.add(conn(alloc, PAY)?)?;
    let mut second = MemGate::new(alloc, Vec::new(alloc));
    second.add(conn(alloc, CREATE)?)?;
    let mut workers = [
        Worker::new(
            Telling {
                gate: first,
                flag: None,
            },
            Waiting { until: &written },
            Turns::new(100_000),
        ),
        Worker::new(
            Telling {
                gate: second,
                flag: Some(&written),
            },
            Waiting { until: &written },
            Turns::new(100_000),
        ),
    ];
    let mut output = MemSink::new(alloc, 4096, Vec::new(alloc));
    let (status, _) = run_host(&rt, alloc, words.as_slice(), &mut workers, &mut output);
    assert_eq!(rt; status, 0);
    for worker in &workers {
        assert_eq!(rt;
            worker.end,
            WorkerEnd::Done {
                sessions: 1,
                broken: 0
            }
        );
        for back in worker.gate.gate.returned() {
            assert_eq!(rt; back.end, End::Closed);
            assert!(rt; back.conn.written().starts_with(b"HTTP/1.1 200 OK\r\n"));
        }
    }
    assert!(rt;
        output
            .bytes()
            .starts_with(b"entries 3\ncalls 2\nattempts 1\napproved 1\n")
    );
    Ok(())
}
