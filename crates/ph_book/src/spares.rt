//! Replies that are made beforehand.
ghost use Rattle.std.specs.Prelude.{◌≡◌, ◌+◌, ◌<◌, false, length, None, IfOk, OnErr, OnOk};
ghost use Rattle.ph_errors.specs.Body.{body_of};
ghost use Rattle.ph_errors.specs.Fixed.{problem_of};
ghost use Rattle.ph_errors.specs.Table.{error_of};
ghost use Rattle.ph_book.specs.Replies.{park_reply};
ghost use Rattle.ph_book.specs.Spares.{AreBodies};

use ph_base::{Bytes, NoMemory, Why};
use ph_errors::Fixed;
use ph_http::Reply;
use std::alloc::Global;

/// The bodies of the replies to a park, made when a run begins, so that its end takes no memory.
#[derive(Drop, Debug)]
pub struct Spare {
    pending: Bytes,
    failed: Bytes,
    no_memory: Bytes,
    ghost bodies: { AreBodies pending failed no_memory },
}

// The body of an error with fixed bytes.
fn fixed_body(alloc: Global, fixed: Fixed) -> Result<Bytes, NoMemory>
    ensures { IfOk result (λ body. body ≡ body_of (error_of (problem_of fixed)) None) }
{
    Bytes::from_slice(alloc, fixed.body().as_bytes())
}

impl Spare {
    /// The replies to the park of one run.
    pub fn new(alloc: Global) -> Result<Spare, NoMemory> {
        Ok(Spare {
            pending: fixed_body(alloc, Fixed::AcquirerPending)?,
            failed: fixed_body(alloc, Fixed::AcquirerFailed)?,
            no_memory: fixed_body(alloc, Fixed::NoMemory)?,
        })
    }

    /// The reply to a park of this reason. It takes no memory.
    pub fn reply(self, why: Why) -> Reply
        ensures { result ≡ park_reply why }
    {
        match why {
            Why::Pending => fixed_reply(Fixed::AcquirerPending, self.pending),
            Why::Failed => fixed_reply(Fixed::AcquirerFailed, self.failed),
            Why::NoMemory => fixed_reply(Fixed::NoMemory, self.no_memory),
        }
    }
}

// The reply of an error with fixed bytes, whose body is at hand.
fn fixed_reply(fixed: Fixed, body: Bytes) -> Reply
    ensures { result ≡ record { status = (error_of (problem_of fixed)).status; body = body; replayed = false; retry = (error_of (problem_of fixed)).retry } }
{
    Reply {
        status: fixed.status(),
        body,
        replayed: false,
        retry: fixed.retry(),
    }
}

/// Makes the replies to one park more.
pub fn add_spare(alloc: Global, spares: &mut Vec<Spare>) -> Result<(), NoMemory>
    ensures ok { OnOk result (length spares.new.items ≡ length spares.old.items + 1) }
    ensures err { OnErr result (length spares.new.items ≡ length spares.old.items) }
{
    let spare = Spare::new(alloc)?;
    spares.push(spare)?;
    Ok(())
}

/// Takes one out.
pub fn take_spare(spares: &mut Vec<Spare>) -> Spare
    requires { 0 < length spares.old.items }
    ensures { length spares.new.items + 1 ≡ length spares.old.items }
{
    match spares.pop() {
        Some(spare) => spare,
        None => unreachable!(),
    }
}
