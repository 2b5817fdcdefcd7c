//! Laws of ledgers, each the contract of a function that does nothing.
ghost use Rattle.ph_ledger.specs.Laws.{BalancesAreSums, OnlyTransactionsCount};

/// After any list of posts and advances, each balance is the sum over the posted rows at the moment of the last
/// advance.
pub fn balances_are_sums()
    ensures { BalancesAreSums }
{}

/// The balances of a history are those of its transactions alone: a ledger of them shows the same as a view of all
/// rows.
pub fn only_transactions_count()
    ensures { OnlyTransactionsCount }
{}
