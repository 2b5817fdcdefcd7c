//! Acquirers: what the simulated one does with each method, how often a drive asks, and futures that are dropped.

use super::tickets::order;
use futures::task::Poll;
use futures::test::MockTask;
use ph_attempts::{Attempts, Decline, Method, Ruling};
use ph_bank::{AuthFuture, Cue, Driven, MemAcquirer, SimAcquirer, Turns, drive};
use ph_base::NoMemory;
use std::alloc::Global;
use std::process::Abort;
use std::test::Fail;

// The end of a drive over the simulated acquirer.
fn simulated(alloc: Global, method: Method, turns: u64) -> Result<Driven, NoMemory> {
    let mut attempts = Attempts::new(alloc);
    let ticket = attempts.begin(0, 1, order(3, method))?;
    let end = drive(&ticket, &mut SimAcquirer::new(), &mut Turns::new(turns));
    attempts.settle(ticket);
    Ok(end)
}

// A drive of this method with so much patience ends so.
fn ends(rt: &impl Abort, alloc: Global, method: Method, turns: u64, end: Driven) {
    let driven = simulated(alloc, method, turns).expect(rt, "no memory");
    assert!(rt; driven == end);
}

/// What the simulated acquirer does with each method. A slow order of three asks is given up after three, and approved
/// at the fourth.
#[test]
fn methods_and_patience(rt: HostRuntime) {
    let alloc = rt.alloc();
    let (approved, gave_up) = (Driven::Ready(Ruling::Approved), Driven::GaveUp);
    let declined = Driven::Ready(Ruling::Declined(Decline::Generic));
    let no_funds = Driven::Ready(Ruling::Declined(Decline::NoFunds));
    ends(&rt, alloc, Method::Visa, 0, approved);
    ends(&rt, alloc, Method::Declined, 0, declined);
    ends(&rt, alloc, Method::NoFunds, 0, no_funds);
    ends(
        &rt,
        alloc,
        Method::Challenge,
        0,
        Driven::Ready(Ruling::Challenge),
    );
    ends(&rt, alloc, Method::Lost, 8, Driven::Failed);
    ends(&rt, alloc, Method::Slow(3), 0, gave_up);
    ends(&rt, alloc, Method::Slow(3), 2, gave_up);
    ends(&rt, alloc, Method::Slow(3), 3, approved);
}

// A drive over a link that follows these cues.
fn scripted(alloc: Global, cues: &[Cue], turns: u64) -> Result<(Driven, MemAcquirer), NoMemory> {
    let mut link = MemAcquirer::new(alloc, Vec::from_slice(alloc, cues)?, 5)?;
    let mut attempts = Attempts::new(alloc);
    let ticket = attempts.begin(0, 1, order(3, Method::Visa))?;
    let end = drive(&ticket, &mut link, &mut Turns::new(turns));
    attempts.settle(ticket);
    Ok((end, link))
}

// A drive over these cues with so much patience ends so, after so many asks, all of one reference.
fn asks(rt: &impl Abort, alloc: Global, cues: &[Cue], turns: u64, end: Driven, count: usize) {
    let (driven, link) = scripted(alloc, cues, turns).expect(rt, "no memory");
    assert!(rt; driven == end);
    asked(rt, &link, count);
}

// The link was asked so often, always of the reference 3.
fn asked(rt: &impl Abort, link: &MemAcquirer, count: usize) {
    assert_eq!(rt; link.asked().len(), count);
    assert!(rt; link.asked().iter().all(|ask| ask.order.reference == 3));
}

/// One ask more than the patience grants, and none after a ruling; a link that fails at the third ask; one that has no
/// room for a sixth.
#[test]
fn asks_of_a_drive(rt: HostRuntime) {
    let alloc = rt.alloc();
    let approved = [
        Cue::Wait,
        Cue::Wait,
        Cue::Wait,
        Cue::Decide(Ruling::Approved),
    ];
    let failed = [Cue::Wait, Cue::Wait, Cue::Fail];
    asks(&rt, alloc, &approved, 0, Driven::GaveUp, 1);
    asks(&rt, alloc, &approved, 1, Driven::GaveUp, 2);
    asks(&rt, alloc, &approved, 2, Driven::GaveUp, 3);
    asks(&rt, alloc, &approved, 3, Driven::Ready(Ruling::Approved), 4);
    asks(&rt, alloc, &approved, 4, Driven::Ready(Ruling::Approved), 4);
    asks(&rt, alloc, &failed, 8, Driven::Failed, 3);
    asks(&rt, alloc, &[], 8, Driven::Failed, 5);
}

// Three futures of one ticket, each dropped after a pending poll, and a fourth that is ruled.
fn dropped(alloc: Global) -> Result<(bool, MemAcquirer), NoMemory> {
    let cues = [
        Cue::Wait,
        Cue::Wait,
        Cue::Wait,
        Cue::Decide(Ruling::Challenge),
    ];
    let mut link = MemAcquirer::new(alloc, Vec::from_slice(alloc, &cues)?, 8)?;
    let mut attempts = Attempts::new(alloc);
    let ticket = attempts.begin(0, 1, order(3, Method::Visa))?;
    let mut as_cued = true;
    for _ in 0..3 {
        let mut future = AuthFuture::new(&ticket, &mut link);
        as_cued &= matches!(future.ask_once(), Poll::Pending);
    }
    let mut last = AuthFuture::new(&ticket, &mut link);
    as_cued &= matches!(last.ask_once(), Poll::Ready(Ok(Ruling::Challenge)));
    attempts.settle(ticket);
    Ok((as_cued, link))
}

/// A future that is dropped between two polls gives its ticket and its link back: one reference throughout.
#[test]
fn futures_dropped_between_polls(rt: HostRuntime) -> Result<(), Fail> {
    let (as_cued, link) = dropped(rt.alloc())?;
    assert!(rt; as_cued);
    asked(&rt, &link, 4);
    Ok(())
}

// Whether an ask of this reference is pending, of an order that waits once.
fn waits(alloc: Global, link: &mut SimAcquirer, reference: u64) -> Result<bool, NoMemory> {
    let mut attempts = Attempts::new(alloc);
    let ticket = attempts.begin(0, 1, order(reference, Method::Slow(1)))?;
    let polled = AuthFuture::new(&ticket, link).ask_once();
    attempts.settle(ticket);
    Ok(matches!(polled, Poll::Pending))
}

/// Of 33 references the first is forgotten, and waits again; the second is remembered.
#[test]
fn the_oldest_reference_is_forgotten(rt: HostRuntime) -> Result<(), Fail> {
    let mut link = SimAcquirer::new();
    for reference in 1..34 {
        assert!(rt; waits(rt.alloc(), &mut link, reference)?);
    }
    assert!(rt; !waits(rt.alloc(), &mut link, 2)?);
    assert!(rt; waits(rt.alloc(), &mut link, 1)?);
    Ok(())
}

/// A pending poll asks to be polled again, and one by a task is one ask.
#[test]
fn polled_by_a_task(rt: HostRuntime) -> Result<(), Fail> {
    let task = MockTask::new(&rt)?;
    let mut attempts = Attempts::new(rt.alloc());
    let mut link = SimAcquirer::new();
    let ticket = attempts.begin(0, 1, order(3, Method::Slow(1)))?;
    let mut future = AuthFuture::new(&ticket, &mut link);
    let first = task.poll(&mut future);
    let woken = task.is_woken();
    let second = task.poll(&mut future);
    attempts.settle(ticket);
    assert!(rt; matches!(first, Poll::Pending) && woken);
    assert!(rt; matches!(second, Poll::Ready(Ok(Ruling::Approved))));
    Ok(())
}
