//! The drive of a ticket.
ghost use Rattle.std.specs.Prelude.{◌≡◌, ◌≤◌};
ghost use Rattle.ph_base.specs.Counts.{Rose};
ghost use Rattle.ph_bank.specs.Drives.{Drives, ended_by};
ghost use Rattle.ph_bank.specs.Patiences.{next_count};

use crate::asking::{Acquirer, AskFailed, AuthFuture};
use crate::patience::Patience;
use futures::task::Poll;
use ph_attempts::Ticket;
use ph_base::Ruling;

/// How a drive ended.
#[derive(Clone, Copy, Debug, PartialEq, Eq)]
pub enum Driven {
    /// The acquirer ruled so.
    Ready(Ruling),
    /// The link failed.
    Failed,
    /// The patience ended before a ruling.
    GaveUp,
}

// How a poll that is ready ends a drive.
fn ended(answer: Result<Ruling, AskFailed>) -> Driven
    ensures { result ≡ ended_by answer }
{
    match answer {
        Ok(ruling) => Driven::Ready(ruling),
        Err(_) => Driven::Failed,
    }
}

/// Polls the authorisation of a ticket until the acquirer rules, the link fails or the patience ends. It takes no
/// memory, and the ticket stays the caller's.
pub fn drive<A: Acquirer, P: Patience>(ticket: &Ticket, link: &mut A, patience: &mut P) -> Driven
    ensures asks { Drives (A.link link.old) (A.link link.new) ticket.now.order (P.counts patience.old).grants (P.counts patience.new).grants result }
    ensures starts { (P.counts patience.new).starts ≡ next_count (P.counts patience.old).starts }
    ensures failed { result ≡ Driven.Failed → Rose (A.link link.old).faults (A.link link.new).faults }
    ensures gave_up { result ≡ Driven.GaveUp → Rose (P.counts patience.old).refusals (P.counts patience.new).refusals }
    ensures refusals { (P.counts patience.old).refusals ≤ (P.counts patience.new).refusals }
{
    patience.start();
    let mut future = AuthFuture::new(ticket, link);
    'polls: loop {
        match future.ask_once() {
            Poll::Ready(answer) => return ended(answer),
            Poll::Pending => {}
        }
        if !patience.more() {
            return Driven::GaveUp;
        }
    }
}
