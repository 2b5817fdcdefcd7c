//! The summary of a run.
ghost use Rattle.std.specs.Prelude.{◌≡◌};
ghost use Rattle.ph_drill.specs.Lines.{Writes};
ghost use Rattle.ph_drill.specs.Summary.{account_lines, balance_lines, count_lines, currency_lines, summary_of};

use crate::counts::{Counts, count_all, is_object};
use crate::lines::{write_balance, write_count};
use ph_base::Kind;
use ph_book::Book;
use ph_io::{Sink, WriteFailed};
use ph_money::Currency;
use ph_rows::View;
use ph_views::{has_txns, printed_id};

/// Writes the summary of a book's history: how many entries it has, calls among them, attempts, approved ones, rows, and events
/// among them, then each account's balances, in the currencies of its transactions. It takes no memory.
pub fn write_summary<K: Sink>(book: &Book, sink: &mut K) -> Result<(), WriteFailed>
    ensures { Writes (K.sink sink.old) (K.sink sink.new) (summary_of book.now.setup book.now.history) result }
{
    write_counts(&count_all(book), sink)?;
    write_balances(book, sink)
}

// Writes the counts.
fn write_counts<K: Sink>(counts: &Counts, sink: &mut K) -> Result<(), WriteFailed>
    ensures { Writes (K.sink sink.old) (K.sink sink.new) (count_lines counts.now) result }
{
    write_count(sink, b"entries", counts.entries)?;
    write_count(sink, b"calls", counts.calls)?;
    write_count(sink, b"attempts", counts.attempts)?;
    write_count(sink, b"approved", counts.approved)?;
    write_count(sink, b"rows", counts.rows)?;
    write_count(sink, b"events", counts.events)
}

// Writes the balances of each account.
fn write_balances<V: View, K: Sink>(view: &V, sink: &mut K) -> Result<(), WriteFailed>
    ensures { Writes (K.sink sink.old) (K.sink sink.new) (balance_lines (V.state view.now)) result }
{
    for at in 0..view.count() {
        let Some(row) = view.row(at + 1) else {
            unreachable!()
        };
        if is_object(Kind::Account, row) {
            write_account(view, row.object, sink)?;
        }
    }
    Ok(())
}

// Writes the balances of an account.
fn write_account<V: View, K: Sink>(view: &V, account: u64, sink: &mut K) -> Result<(), WriteFailed>
    ensures { Writes (K.sink sink.old) (K.sink sink.new) (account_lines (V.state view.now) account) result }
{
    for currency in &Currency::ALL {
        write_currency(view, account, *currency, sink)?;
    }
    Ok(())
}

// Writes the balance of an account in a currency, where it has transactions in it.
fn write_currency<V: View, K: Sink>(
    view: &V,
    account: u64,
    currency: Currency,
    sink: &mut K,
) -> Result<(), WriteFailed>
    ensures { Writes (K.sink sink.old) (K.sink sink.new) (currency_lines (V.state view.now) account currency) result }
{
    if !has_txns(view, account, currency) {
        return Ok(());
    }
    write_balance(
        sink,
        printed_id(Kind::Account, account).as_slice(),
        currency.code(),
        view.available(account, currency),
        view.pending(account, currency),
    )
}
