//! What holds of every legal history.
ghost use Rattle.ph_doings.specs.Laws.{HasOneUnsettled};
ghost use Rattle.ph_book.specs.History.{doings_of, rows_of};
ghost use Rattle.ph_book.specs.Legal.{IsLegal};
ghost use Rattle.ph_book.specs.Laws.{AmountsAreSums, BalancesAreSums, DisputesMoveOnce, FeeRefundsFit, HaveDifferentIds, HaveDifferentReferences, RefundsFit, ReversalsFit, RunsAreShown, RunsFollow, TransfersFit, WereChallenged};

use crate::acts::Entry;
use crate::book::Book;
use crate::setup::{Setup, few_entries};

/// The history of a book is legal.
pub fn history_is_legal(book: &Book)
    ensures { IsLegal book.now.setup book.now.history }
{
    let _history = book.history();
}

/// The first versions of different objects have different ids.
pub fn ids_differ(setup: &Setup, _history: &[Entry])
    requires { IsLegal setup.now _history.now }
    ensures { HaveDifferentIds (rows_of setup.now _history.now) }
{
    few_entries(setup.entries);
}

/// What is available of an account in a currency and what is pending are together the sum of amount less fee over its
/// transactions, whatever the time: moving the clock changes no total.
pub fn balances_are_sums(_setup: &Setup, _history: &[Entry])
    ensures { BalancesAreSums (rows_of _setup.now _history.now) }
{}

/// What was captured of a charge is the sum of its transactions of type charge or payment, what was refunded the sum of its
/// refunds, and what was transferred that of the transfers drawn on it; what was reversed of a transfer and given back of an
/// application fee are the sums of their reversals and refunds; what can be captured of a payment intent is what is left of
/// what was authorised of its charge, and what a dispute has taken is what its transactions take.
pub fn amounts_are_sums(setup: &Setup, _history: &[Entry])
    requires { IsLegal setup.now _history.now }
    ensures { AmountsAreSums (rows_of setup.now _history.now) }
{
    few_entries(setup.entries);
}

/// The refunds of a charge never add up to more than what was captured of it.
pub fn refunds_fit(setup: &Setup, _history: &[Entry])
    requires { IsLegal setup.now _history.now }
    ensures { RefundsFit (rows_of setup.now _history.now) }
{
    few_entries(setup.entries);
}

/// The transfers drawn on a charge never add up to more than what was captured of it.
pub fn transfers_fit(setup: &Setup, _history: &[Entry])
    requires { IsLegal setup.now _history.now }
    ensures { TransfersFit (rows_of setup.now _history.now) }
{
    few_entries(setup.entries);
}

/// The reversals of a transfer never add up to more than its amount.
pub fn reversals_fit(setup: &Setup, _history: &[Entry])
    requires { IsLegal setup.now _history.now }
    ensures { ReversalsFit (rows_of setup.now _history.now) }
{
    few_entries(setup.entries);
}

/// The refunds of an application fee never add up to more than the fee.
pub fn fee_refunds_fit(setup: &Setup, _history: &[Entry])
    requires { IsLegal setup.now _history.now }
    ensures { FeeRefundsFit (rows_of setup.now _history.now) }
{
    few_entries(setup.entries);
}

/// A dispute has one transaction, which takes its amount and the fee, and a second one, which gives the amount back,
/// exactly where it is won.
pub fn disputes_move_once(setup: &Setup, _history: &[Entry])
    requires { IsLegal setup.now _history.now }
    ensures { DisputesMoveOnce (rows_of setup.now _history.now) }
{
    few_entries(setup.entries);
}

/// Different attempts have different references.
pub fn references_differ(setup: &Setup, _history: &[Entry])
    requires { IsLegal setup.now _history.now }
    ensures { HaveDifferentReferences (doings_of setup.now _history.now) }
{
    few_entries(setup.entries);
}

/// A payment intent is processing exactly where it has an attempt that isn't settled, and it never has two.
pub fn processing_has_one_attempt(setup: &Setup, _history: &[Entry])
    requires { IsLegal setup.now _history.now }
    ensures { HasOneUnsettled (doings_of setup.now _history.now) }
{
    few_entries(setup.entries);
}

/// Of a confirmation's attempts all but the last are settled with a challenge.
pub fn all_but_the_last_were_challenged(setup: &Setup, _history: &[Entry])
    requires { IsLegal setup.now _history.now }
    ensures { WereChallenged (doings_of setup.now _history.now) }
{
    few_entries(setup.entries);
}

/// The last row of each live run's attempt is live under its order, and that of its payment intent is processing: a
/// ruling finds both.
pub fn live_runs_are_shown(setup: &Setup, _history: &[Entry])
    requires { IsLegal setup.now _history.now }
    ensures { RunsAreShown (doings_of setup.now _history.now) (rows_of setup.now _history.now) }
{
    few_entries(setup.entries);
}

/// A call that is answered leaves the live runs as they are, the run of a call that waits stands behind them, as does that
/// by which an attempt is taken up again, and a ruling on a run or a park of it takes it out.
pub fn runs_follow(setup: &Setup, _history: &[Entry])
    requires { IsLegal setup.now _history.now }
    ensures { RunsFollow setup.now _history.now }
{
    few_entries(setup.entries);
}
