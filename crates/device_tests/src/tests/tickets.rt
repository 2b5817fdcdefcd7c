//! Tickets: runs that are parked, taken up again and settled.
ghost use Rattle.std.specs.Prelude.{◌≡◌};

use ph_attempts::{Attempts, Method, Order};
use ph_base::NoMemory;
use ph_money::{Amount, Currency};

/// An order of 2000 usd.
pub fn order(reference: u64, method: Method) -> Order
    ensures { result.reference ≡ reference }
{
    Order {
        reference,
        amount: Amount::new(2000),
        currency: Currency::Usd,
        method,
    }
}

/// One attempt: its run is parked, it is taken up again by another with its order, and settled.
#[test]
fn parked_and_taken_up_again(rt: HostRuntime) -> Result<(), NoMemory> {
    let mut attempts = Attempts::new(rt.alloc());
    assert!(rt; attempts.parked() == None);
    let first = attempts.begin(0, 1, order(3, Method::Slow(3)))?;
    assert!(rt; first.caller() == 0 && first.run() == 1 && first.order().reference == 3);
    attempts.park(first);
    assert!(rt; attempts.parked() == Some(3));
    let again = attempts.resume(3, 5, 2);
    assert!(rt; again.caller() == 5 && again.run() == 2 && again.order().reference == 3);
    assert!(rt; again.order().method == Method::Slow(3));
    assert!(rt; attempts.parked() == None);
    let settled = attempts.settle(again);
    assert!(rt; settled.reference == 3);
    assert!(rt; attempts.parked() == None);
    Ok(())
}

/// Two attempts: of the parked ones that whose last park stands earliest comes first, not the one that began first.
#[test]
fn the_earliest_park_comes_first(rt: HostRuntime) -> Result<(), NoMemory> {
    let mut attempts = Attempts::new(rt.alloc());
    let first = attempts.begin(0, 1, order(3, Method::Lost))?;
    let second = match attempts.begin(1, 2, order(7, Method::Lost)) {
        Ok(ticket) => ticket,
        Err(failed) => {
            attempts.park(first);
            return Err(failed);
        }
    };
    attempts.park(second);
    attempts.park(first);
    assert!(rt; attempts.parked() == Some(7));
    let again = attempts.resume(7, 0, 3);
    assert!(rt; attempts.parked() == Some(3));
    attempts.park(again);
    assert!(rt; attempts.parked() == Some(3));
    Ok(())
}
