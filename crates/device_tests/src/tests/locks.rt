//! The lock: two passes of one thread, and two and four threads that add to one tally.
ghost use Rattle.std.specs.Prelude.{◌≡◌, ℕ, [], ◌∷◌, length, IfSome};
ghost use Rattle.ph_lock.specs.Passes.{SamePass};

use ph_lock::tally::{Add, Over, Tally};
use ph_lock::{Lock, Object, Pass, Refused};
use std::sync::Wait;
use std::test::Fail;
use std::thread::{Threads, join};

// Two passes fill a tally of limit 2: 5 is answered 5, 7 is answered 12, and 1 is refused. The second pass's note is
// then met by the first.
fn fill_two<R: Wait>(
    rt: &R,
    lock: &Lock<Tally>,
    first: &mut Pass<Tally>,
    second: &mut Pass<Tally>,
) -> Option<()>
    requires lock { (first.old.lock ≡ lock.now) × (second.old.lock ≡ lock.now) }
    requires limit { (first.old.base ≡ 2) × (second.old.base ≡ 2) }
    requires mine { second.old.mine ≡ [] }
    ensures same { SamePass first.old first.new × SamePass second.old second.new }
    ensures front { IfSome result (λ _. length first.new.front ≡ 2) }
    ensures mine { IfSome result (λ _. (entry : ℕ × ℕ) × (second.new.mine ≡ (2, entry) ∷ [])) }
{
    let (answer, sum) = match lock.act(rt, first, Add(5)) {
        Ok(answer) => match lock.act(rt, second, Add(7)) {
            Ok(sum) => (answer, sum),
            Err(_) => return None,
        },
        Err(_) => return None,
    };
    let Err((_, Refused::Full)) = lock.act(rt, first, Add(1)) else {
        return None;
    };
    let note = lock.note(second);
    lock.meet(first, note);
    if answer == 5 && sum == 12 {
        Some(())
    } else {
        None
    }
}

#[test]
fn two_passes_fill_a_tally_of_two(rt: HostRuntime) -> Result<(), Fail> {
    let Ok((lock, mut first)) = Lock::new(rt.alloc(), Tally::new(rt.alloc(), 2)) else {
        panic!(rt; "no memory")
    };
    let mut second = lock.split(&rt, &mut first);
    assert!(rt; first.caller() == 0 && second.caller() == 1);
    assert!(rt; fill_two(&rt, &lock, &mut first, &mut second).is_some());
    assert!(rt; lock.look(&rt, &mut second, &Over(1)) && !lock.look(&rt, &mut first, &Over(2)));
    let _view = lock.join(&mut first, second);
    let (tally, _view) = lock.close(&rt, first);
    assert!(rt; tally.callers() == 2 && tally.look(&Over(1)) && !tally.look(&Over(2)));
    Ok(())
}

// Adds 1 so many times, and gives the pass back.
fn add_ones<R: Wait>(rt: &R, lock: &Lock<Tally>, mut pass: Pass<Tally>, times: u32) -> Pass<Tally>
    requires { pass.lock ≡ lock.now }
    ensures { result.lock ≡ pass.lock }
{
    for _ in 0..times {
        let _ = lock.act(rt, &mut pass, Add(1));
    }
    pass
}

// Two threads add 1 so many times each.
fn add_ones_by_two<R: Threads + Wait + Sync>(
    rt: &R,
    lock: &Lock<Tally>,
    first: Pass<Tally>,
    second: Pass<Tally>,
    times: u32,
) -> (Pass<Tally>, Pass<Tally>)
    requires { (first.lock ≡ lock.now) × (second.lock ≡ lock.now) }
    ensures { (result.0.lock ≡ first.lock) × (result.1.lock ≡ second.lock) }
{
    join(
        rt,
        move || add_ones(rt, lock, first, times),
        move || add_ones(rt, lock, second, times),
    )
}

#[test]
fn two_threads_add_a_hundred_ones_each(rt: HostRuntime) -> Result<(), Fail> {
    let Ok((lock, mut first)) = Lock::new(rt.alloc(), Tally::new(rt.alloc(), 1000)) else {
        panic!(rt; "no memory")
    };
    let second = lock.split(&rt, &mut first);
    let (mut first, second) = add_ones_by_two(&rt, &lock, first, second, 100);
    let _view = lock.join(&mut first, second);
    let (tally, _view) = lock.close(&rt, first);
    assert!(rt; tally.look(&Over(199)) && !tally.look(&Over(200)));
    Ok(())
}

#[test]
fn four_threads_add_a_thousand_ones_each(rt: HostRuntime) -> Result<(), Fail> {
    let Ok((lock, mut first)) = Lock::new(rt.alloc(), Tally::new(rt.alloc(), 10_000)) else {
        panic!(rt; "no memory")
    };
    let second = lock.split(&rt, &mut first);
    let third = lock.split(&rt, &mut first);
    let fourth = lock.split(&rt, &mut first);
    let (shared, rt) = (&lock, &rt);
    let ((mut first, second), (third, fourth)) = join(
        rt,
        move || add_ones_by_two(rt, shared, first, second, 1000),
        move || add_ones_by_two(rt, shared, third, fourth, 1000),
    );
    let _views = [
        lock.join(&mut first, second),
        lock.join(&mut first, third),
        lock.join(&mut first, fourth),
    ];
    let (tally, _view) = lock.close(rt, first);
    assert!(rt; tally.look(&Over(3999)) && !tally.look(&Over(4000)));
    Ok(())
}
