//! A link to an acquirer that rules when something has happened elsewhere.
ghost use Rattle.std.specs.Prelude.{None};
ghost use Rattle.ph_bank.specs.Links.{Link};

use ph_bank::{Acquirer, AskFailed, AskTurn, Asked};
use ph_base::Ruling;
use ph_items::Order;
use std::sync::atomic::{AtomicBool, Ordering};

/// Answers that it hasn't ruled yet until the flag is set, and then approves. It tells nothing of itself.
#[derive(Drop)]
pub struct Waiting<'a> {
    pub until: &'a AtomicBool,
}

impl<'a> Acquirer for Waiting<'a> {
    ghost link = { λ _. record { asked = None; decisions = None; faults = 0 } };

    fn ask(&mut self, _order: &Order, _turn: AskTurn) -> Result<Asked, AskFailed> {
        if self.until.load(Ordering::SeqCst) {
            Ok(Asked::Ruled(Ruling::Approved))
        } else {
            Ok(Asked::Pending)
        }
    }
}
