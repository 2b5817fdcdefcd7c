//! Sending the request of a job.
ghost use Rattle.std.specs.Prelude.{◌≡◌, ◌≢◌, ◌⊎◌};
ghost use Rattle.ph_base.specs.Counts.{Rose};
ghost use Rattle.ph_delivery.specs.declared.outcome.Outcome.TheVariants as outcome;
ghost use Rattle.ph_courier.specs.Calls.{Delivers, Ends};

use crate::answer::listen;
use ph_base::Bytes;
use ph_delivery::{Job, Outcome};
use ph_dial::Dialer;
use ph_io::{Duplex, write_all};

// Writes the request to a connection and reads the answer.
fn exchange<C: Duplex>(conn: &mut C, request: &[u8]) -> Outcome
    ensures ends { Ends (C.source conn.old) (C.source conn.new) (C.sink conn.old) (C.sink conn.new) request.now result }
    ensures address { C.address conn.new ≡ C.address conn.old }
{
    match write_all(conn, request) {
        Ok(()) => listen(conn),
        Err(_) => Outcome::Unreached,
    }
}

// Sends a request to this host and port.
fn send<D: Dialer>(dialer: &mut D, host: &Bytes, port: u16, request: &[u8]) -> Outcome
    ensures { Delivers (D.dialer dialer.old) (D.dialer dialer.new) host.now port request.now result }
{
    match dialer.dial(host, port) {
        Ok(mut conn) => {
            let outcome = exchange(&mut conn, request);
            dialer.back(conn);
            outcome
        }
        Err(_) => Outcome::Unreached,
    }
}

/// Sends the request of a job to its host and port, over one connection, and says what became of it.
/// The connection is handed back to the dialer before this returns. It takes no memory.
///
/// The request is written whole before anything of the answer is read. Of the answer at most 16,384
/// bytes are read, and none once its head is there: a status from 200 to 299 is `Accepted`, any other
/// `Refused` with the status, and an answer without a head `Refused` with 0. Where the dial fails, or
/// a write or a read, it is `Unreached`.
pub fn deliver<D: Dialer>(dialer: &mut D, job: &Job) -> Outcome
    ensures delivers { Delivers (D.dialer dialer.old) (D.dialer dialer.new) job.now.host job.now.port job.now.request result }

    // It is unreached only where the dial failed, or the connection came back broken.
    ensures unreached { result ≡ outcome.Unreached →
        Rose (D.dialer dialer.old).faults (D.dialer dialer.new).faults
        ⊎ Rose (D.dialer dialer.old).broken (D.dialer dialer.new).broken }

    // It is never dropped, which is for want of memory.
    ensures kept { result ≢ outcome.Dropped }
{
    send(dialer, job.host(), job.port(), job.request().as_slice())
}
