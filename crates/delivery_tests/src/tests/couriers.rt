//! Deliveries: their request, what becomes of it at far ends in memory, and when it is sent again.
ghost use Rattle.std.specs.Prelude.{◌<◌, IfOk};
ghost use Rattle.ph_dial.specs.MemDialers.{IsUnused};

use ph_base::{Bytes, NoMemory};
use ph_courier::deliver;
use ph_delivery::{Delivery, DeliveryState, Job, Outcome, delivery_request};
use ph_dial::{FarEnd, MemDialer};
use ph_hooks::{Hooks, Waiting};
use ph_io::{MemSink, MemSource};
use std::alloc::Global;
use std::process::Abort;
use std::test::Fail;

/// A far end that gives this answer in pieces of at most so many bytes, and of which the reads and
/// writes of these numbers fail. A write takes at most 64 bytes.
fn far_end(
    alloc: Global,
    answer: &[u8],
    most: usize,
    reads: &[u64],
    writes: &[u64],
) -> Result<FarEnd, NoMemory>
    requires { 0 < most }
    ensures { IfOk result IsUnused }
{
    let source = MemSource::new(
        Vec::from_slice(alloc, answer)?,
        most,
        Vec::from_slice(alloc, reads)?,
    );
    let sink = MemSink::new(alloc, 64, Vec::from_slice(alloc, writes)?);
    Ok(FarEnd { source, sink })
}

/// A dialer with one far end.
fn dialer(alloc: Global, far: FarEnd) -> Result<MemDialer, NoMemory>
    requires { IsUnused far }
{
    let mut dialer = MemDialer::new(alloc, Vec::new(alloc));
    dialer.add(far)?;
    Ok(dialer)
}

/// What becomes of a short request at this dialer.
fn outcome(alloc: Global, dialer: &mut MemDialer) -> Result<Outcome, NoMemory> {
    let host = Bytes::from_slice(alloc, b"127.0.0.1")?;
    let request = Bytes::from_slice(alloc, b"POST /hook HTTP/1.1\r\n\r\n")?;
    let job = Job::new(host, 9000, request, 3);
    let outcome = deliver(dialer, &job);
    let _ = job.told();
    Ok(outcome)
}

/// What becomes of a request that is answered so, in pieces of at most so many bytes, where the reads
/// and writes of these numbers fail.
fn answered(
    alloc: Global,
    answer: &[u8],
    most: usize,
    reads: &[u64],
    writes: &[u64],
) -> Result<Outcome, NoMemory>
    requires { 0 < most }
{
    let far = far_end(alloc, answer, most, reads, writes)?;
    let mut dialer = dialer(alloc, far)?;
    outcome(alloc, &mut dialer)
}

/// This becomes of a request that is answered so, in pieces of seven bytes.
fn says(rt: &impl Abort, alloc: Global, answer: &[u8], expected: Outcome) {
    let found = answered(alloc, answer, 7, &[], &[]).expect(rt, "no memory");
    assert_eq!(rt; found, expected);
}

/// The signatures, at 1700000000 under `whsec_test_0000000000000002` and `whsec_test_0000000000000003`,
/// were made with Python's `hmac`.
#[test]
fn the_request_has_its_lines_and_its_signature(rt: HostRuntime) -> Result<(), Fail> {
    let alloc = rt.alloc();
    let mut secrets = Vec::new(alloc);
    secrets.push(Bytes::from_slice(alloc, b"whsec_test_0000000000000002")?)?;
    secrets.push(Bytes::from_slice(alloc, b"whsec_test_0000000000000003")?)?;
    let request = delivery_request(
        alloc,
        b"127.0.0.1",
        9000,
        b"/hook?a=b",
        &secrets,
        1_700_000_000,
        b"{\"id\":\"evt_0000000000000004\"}",
    )?;
    let expected = b"POST /hook?a=b HTTP/1.1\r\n\
        Host: 127.0.0.1:9000\r\n\
        User-Agent: payhost\r\n\
        Content-Type: application/json\r\n\
        Stripe-Signature: t=1700000000,v1=f44f7aa002d16c2e0c6101af95747214b4f07e0e2672751d4aa501033402e8e9,v1=d6d6e856cec6b5a8eba2a5e9f23b9f5fa39e4f976226dc8945e32af9c80c0c1a\r\n\
        Content-Length: 29\r\n\
        Connection: close\r\n\
        \r\n\
        {\"id\":\"evt_0000000000000004\"}";
    assert_eq!(rt; request.as_slice(), expected.as_slice());
    Ok(())
}

#[test]
fn an_answer_says_what_became_of_it(rt: HostRuntime) {
    let alloc = rt.alloc();
    let whole = b"HTTP/1.1 200 OK\r\nContent-Length: 2\r\n\r\nok".as_slice();
    says(&rt, alloc, whole, Outcome::Accepted);
    says(&rt, alloc, b"HTTP/1.1 204\r\n\r\n", Outcome::Accepted);
    says(&rt, alloc, b"HTTP/1.0 299 Odd\r\n\r\n", Outcome::Accepted);
    let odd = b"HTTP/1.1 199 Odd\r\n\r\n".as_slice();
    says(&rt, alloc, odd, Outcome::Refused(199));
    let moved = b"HTTP/1.1 300 Multiple Choices\r\n\r\n".as_slice();
    says(&rt, alloc, moved, Outcome::Refused(300));
    let broken = b"HTTP/1.1 500 Internal Server Error\r\n\r\n".as_slice();
    says(&rt, alloc, broken, Outcome::Refused(500));
    let interim = b"HTTP/1.1 100 Continue\r\n\r\nHTTP/1.1 200 OK\r\n\r\n".as_slice();
    says(&rt, alloc, interim, Outcome::Refused(100));
    says(&rt, alloc, b"HTTP/1.1 200 OK\r\n", Outcome::Refused(0));
    says(&rt, alloc, b"not a head", Outcome::Refused(0));
    says(&rt, alloc, b"", Outcome::Refused(0));
}

/// What becomes of a request that is answered by a head of 200 with so many bytes, of which the value
/// of a field fills all but 24.
fn long_head(alloc: Global, value: usize) -> Result<Outcome, NoMemory> {
    let filler = Vec::from_elem(alloc, b'a', value)?;
    let mut answer = Vec::from_slice(alloc, b"HTTP/1.1 200 OK\r\nA: ")?;
    answer.extend_from_slice(&filler)?;
    answer.extend_from_slice(b"\r\n\r\n")?;
    answered(alloc, &answer, 5000, &[], &[])
}

/// A head of 16,384 bytes is one, and a head of 16,385 bytes is none.
#[test]
fn a_head_of_over_16384_bytes_is_none(rt: HostRuntime) -> Result<(), Fail> {
    let alloc = rt.alloc();
    assert_eq!(rt; long_head(alloc, 16_384 - 24)?, Outcome::Accepted);
    assert_eq!(rt; long_head(alloc, 16_385 - 24)?, Outcome::Refused(0));
    Ok(())
}

/// This becomes of a request that is answered by a head of 200 in three pieces, where the reads and
/// writes of these numbers fail.
fn fails(rt: &impl Abort, alloc: Global, reads: &[u64], writes: &[u64], expected: Outcome) {
    let answer = b"HTTP/1.1 200 OK\r\n\r\n";
    let found = answered(alloc, answer, 7, reads, writes).expect(rt, "no memory");
    assert_eq!(rt; found, expected);
}

#[test]
fn a_connection_that_fails_leaves_it_unreached(rt: HostRuntime) {
    let alloc = rt.alloc();
    fails(&rt, alloc, &[1], &[], Outcome::Unreached);
    fails(&rt, alloc, &[], &[0], Outcome::Unreached);
    // A read that would fail behind the head isn't made.
    fails(&rt, alloc, &[3], &[], Outcome::Accepted);
}

#[test]
fn a_dial_without_a_far_end_leaves_it_unreached(rt: HostRuntime) -> Result<(), Fail> {
    let alloc = rt.alloc();
    let mut none = MemDialer::new(alloc, Vec::new(alloc));
    assert_eq!(rt; outcome(alloc, &mut none)?, Outcome::Unreached);
    assert!(rt; none.returned().is_empty());
    Ok(())
}

/// A delivery that is tried once more at a moment, with this outcome, where it may be.
fn tried(delivery: Delivery, outcome: Outcome, at: u64) -> Delivery {
    let taken = delivery.taken();
    if taken.tries < 4 && at < 1_000_000 {
        taken.told(outcome, at)
    } else {
        taken
    }
}

/// A delivery that failed at this moment is due next at that one, or never.
fn again(rt: &impl Abort, delivery: Delivery, at: u64, next: Option<u64>) -> Delivery {
    let failed = tried(delivery, Outcome::Unreached, at);
    assert_eq!(rt; failed.due(), next);
    failed
}

#[test]
fn a_delivery_is_given_up_after_the_fourth_attempt(rt: HostRuntime) {
    let first = again(&rt, Delivery::begun(0), 0, Some(60));
    let second = again(&rt, first, 60, Some(3_660));
    let third = again(&rt, second, 3_660, Some(14_460));
    let last = again(&rt, third, 14_460, None);
    assert_eq!(rt; last.state, DeliveryState::GivenUp);
    assert_eq!(rt; last.tries, 4);
}

/// One that was refused is due again, one that was dropped is due as before, and one that was accepted
/// isn't due.
#[test]
fn an_outcome_decides_when_it_is_due(rt: HostRuntime) {
    let begun = Delivery::begun(50);
    assert_eq!(rt; begun.taken().due(), None);
    assert_eq!(rt; tried(begun, Outcome::Refused(500), 70).due(), Some(130));
    assert_eq!(rt; tried(begun, Outcome::Dropped, 70).due(), Some(50));
    assert_eq!(rt; tried(begun, Outcome::Accepted, 70).due(), None);
}

/// Deliveries of these numbers and endpoints, with the moments from which on they are due.
fn hooks(alloc: Global, rows: &[(u64, u64, u64)]) -> Result<Hooks, NoMemory> {
    let mut hooks = Hooks::new(alloc);
    for (number, endpoint, at) in rows {
        hooks.add(Waiting {
            number: *number,
            endpoint: *endpoint,
            delivery: Delivery::begun(*at),
        })?;
    }
    Ok(hooks)
}

/// At this moment the delivery of this number is to be sent first, or none is.
fn first(rt: &impl Abort, hooks: &Hooks, at: u64, number: Option<u64>) {
    assert_eq!(rt; hooks.due(at), number);
}

#[test]
fn the_first_due_is_by_moment_and_number(rt: HostRuntime) -> Result<(), Fail> {
    let rows = [(7, 3, 20), (5, 2, 20), (9, 2, 10), (4, 2, 30)];
    let mut hooks = hooks(rt.alloc(), &rows)?;
    first(&rt, &hooks, 9, None);
    first(&rt, &hooks, 10, Some(9));
    hooks.renew(9, Delivery::begun(10).taken());
    first(&rt, &hooks, 40, Some(5));
    hooks.renew(9, tried(Delivery::begun(10), Outcome::Dropped, 40));
    first(&rt, &hooks, 40, Some(9));
    Ok(())
}

#[test]
fn the_deliveries_of_a_deleted_endpoint_are_not_due(rt: HostRuntime) -> Result<(), Fail> {
    let mut hooks = hooks(rt.alloc(), &[(7, 3, 20), (5, 2, 20)])?;
    hooks.delete(2)?;
    first(&rt, &hooks, 40, Some(7));
    hooks.delete(3)?;
    first(&rt, &hooks, 40, None);
    Ok(())
}
