//! One worker over a gate in memory.
use super::words::{CREATE, INTENT, RETRIEVE, conn, words};
use ph_bank::{SimAcquirer, Turns};
use ph_host::{Worker, WorkerEnd, run_host};
use ph_io::{End, MemGate, MemSink};
use std::test::Fail;

#[test]
fn two_connections_act_on_one_book(rt: HostRuntime) -> Result<(), Fail> {
    let alloc = rt.alloc();
    let words = words(alloc, b"1")?;
    let mut gate = MemGate::new(alloc, Vec::new(alloc));
    gate.add(conn(alloc, CREATE)?)?;
    gate.add(conn(alloc, RETRIEVE)?)?;
    let mut workers = [Worker::new(gate, SimAcquirer::new(), Turns::new(0))];
    let mut output = MemSink::new(alloc, 4096, Vec::new(alloc));
    let (status, book) = run_host(&rt, alloc, words.as_slice(), &mut workers, &mut output);
    assert_eq!(rt; status, 0);
    assert!(rt; book.is_some());
    assert_eq!(rt;
        output.bytes(),
        b"entries 2\ncalls 2\nattempts 0\napproved 0\nrows 3\nevents 1\n".as_slice()
    );
    assert_eq!(rt;
        workers[0].end,
        WorkerEnd::Done {
            sessions: 2,
            broken: 0
        }
    );
    let returned = workers[0].gate.returned();
    assert_eq!(rt; returned.len(), 2);
    for back in returned {
        assert_eq!(rt; back.end, End::Closed);
        assert_eq!(rt; back.conn.written(), INTENT);
    }
    Ok(())
}

#[test]
fn a_gate_that_fails_at_first_is_status_7(rt: HostRuntime) -> Result<(), Fail> {
    let alloc = rt.alloc();
    let words = words(alloc, b"1")?;
    let mut gate = MemGate::new(alloc, [0].to_vec(alloc)?);
    gate.add(conn(alloc, CREATE)?)?;
    let mut workers = [Worker::new(gate, SimAcquirer::new(), Turns::new(0))];
    let mut output = MemSink::new(alloc, 4096, Vec::new(alloc));
    let (status, _) = run_host(&rt, alloc, words.as_slice(), &mut workers, &mut output);
    assert_eq!(rt; status, 7);
    assert_eq!(rt; workers[0].end, WorkerEnd::GateFault);
    assert_eq!(rt; workers[0].gate.returned().len(), 0);
    assert_eq!(rt;
        output.bytes(),
        b"entries 0\ncalls 0\nattempts 0\napproved 0\nrows 1\nevents 0\n".as_slice()
    );
    Ok(())
}

#[test]
fn a_broken_session_is_counted_and_the_next_connection_served(rt: HostRuntime) -> Result<(), Fail> {
    let alloc = rt.alloc();
    let words = words(alloc, b"1")?;
    let mut gate = MemGate::new(alloc, Vec::new(alloc));
    gate.add(conn(alloc, b"POST /v1/payment_intents HTTP/1.1\r\n")?)?;
    gate.add(conn(alloc, CREATE)?)?;
    let mut workers = [Worker::new(gate, SimAcquirer::new(), Turns::new(0))];
    let mut output = MemSink::new(alloc, 4096, Vec::new(alloc));
    let (status, _) = run_host(&rt, alloc, words.as_slice(), &mut workers, &mut output);
    assert_eq!(rt; status, 0);
    assert_eq!(rt;
        workers[0].end,
        WorkerEnd::Done {
            sessions: 2,
            broken: 1
        }
    );
    let returned = workers[0].gate.returned();
    assert_eq!(rt; returned.len(), 2);
    assert_eq!(rt; returned[0].end, End::Cut);
    assert_eq!(rt; returned[0].conn.written(), b"".as_slice());
    assert_eq!(rt; returned[1].end, End::Closed);
    assert_eq!(rt; returned[1].conn.written(), INTENT);
    Ok(())
}

#[test]
fn another_number_of_workers_is_status_2(rt: HostRuntime) -> Result<(), Fail> {
    let alloc = rt.alloc();
    let words = words(alloc, b"2")?;
    let gate = MemGate::new(alloc, Vec::new(alloc));
    let mut workers = [Worker::new(gate, SimAcquirer::new(), Turns::new(0))];
    let mut output = MemSink::new(alloc, 4096, Vec::new(alloc));
    let (status, book) = run_host(&rt, alloc, words.as_slice(), &mut workers, &mut output);
    assert_eq!(rt; status, 2);
    assert!(rt; book.is_none());
    assert_eq!(rt; workers[0].end, WorkerEnd::Idle);
    assert_eq!(rt;
        output.bytes(),
        b"usage: payhost stdio|serve|drill|replay|sign|verify\n".as_slice()
    );
    Ok(())
}
