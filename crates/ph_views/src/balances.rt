//! The balance of an account.
ghost use Rattle.std.specs.Prelude.{◌≡◌, [], ◌∷◌, ◌++◌, IfOk, OnOk, OnErr};
ghost use Rattle.ph_money.specs.Currencies.{currencies};
ghost use Rattle.ph_rows.specs.Balances.{balance_of};
ghost use Rattle.ph_views.specs.Balances.{balance_doc, currencies_of, has_txns, is_txn_of, sum_doc, sum_docs};

use ph_base::NoMemory;
use ph_json::{Doc, Members};
use ph_money::Currency;
use ph_rows::{Row, View};
use std::alloc::Global;

/// The document of the balance of an account: what is available and what is pending, in each currency in which the
/// account has transactions, or in usd where it has none.
pub fn balance_doc<V: View>(alloc: Global, view: &V, account: u64) -> Result<Doc, NoMemory>
    ensures { IfOk result (λ doc. doc ≡ balance_doc account (V.state view.now).time (V.state view.now).rows) }
{
    let currencies = currencies(alloc, view, account)?;
    let list = currencies.as_slice();
    let mut members = Members::new(alloc);
    put_sums(alloc, &mut members, "available", view, true, account, list)?;
    members.truth("livemode", false)?;
    members.word("object", "balance")?;
    put_sums(alloc, &mut members, "pending", view, false, account, list)?;
    Ok(members.done())
}

// Puts the available or the pending balances of an account in currencies.
fn put_sums<V: View>(
    alloc: Global,
    members: &mut Members,
    key: &str,
    view: &V,
    available: bool,
    account: u64,
    currencies: &[Currency],
) -> Result<(), NoMemory>
    ensures ok { OnOk result (members.new ≡ members.old ++ (key.now, Doc.List (sum_docs available account (V.state view.now).time (V.state view.now).rows currencies.now)) ∷ []) }
    ensures err { OnErr result (members.new ≡ members.old) }
{
    let sums = sums(alloc, view, available, account, currencies)?;
    members.put(key, sums)
}

// The currencies of an account's transactions, or usd.
fn currencies<V: View>(alloc: Global, view: &V, account: u64) -> Result<Vec<Currency>, NoMemory>
    ensures { IfOk result (λ list. list.items ≡ currencies_of account (V.state view.now).rows) }
{
    let mut list = Vec::new(alloc);
    for currency in &Currency::ALL {
        if has_txns(view, account, *currency) {
            list.push(*currency)?;
        }
    }
    if list.is_empty() {
        list.push(Currency::Usd)?;
    }
    Ok(list)
}

/// Whether an account has transactions in a currency.
pub fn has_txns<V: View>(view: &V, account: u64, currency: Currency) -> bool
    ensures { result ≡ has_txns account (V.state view.now).rows currency }
{
    for at in 0..view.count() {
        match view.row(at + 1) {
            Some(row) => {
                if is_txn_of(account, currency, row) {
                    return true;
                }
            }
            None => return false,
        }
    }
    false
}

// Whether a row is a transaction of an account in a currency.
fn is_txn_of(account: u64, currency: Currency, row: &Row) -> bool
    ensures { result ≡ is_txn_of account currency row.now }
{
    if row.account != account {
        return false;
    }
    match row.item.movement() {
        Some(movement) => movement.is_in(currency),
        None => false,
    }
}

// The available or the pending balances of an account in currencies.
fn sums<V: View>(
    alloc: Global,
    view: &V,
    available: bool,
    account: u64,
    currencies: &[Currency],
) -> Result<Doc, NoMemory>
    ensures { IfOk result (λ doc. doc ≡ Doc.List (sum_docs available account (V.state view.now).time (V.state view.now).rows currencies.now)) }
{
    let mut docs = Vec::new(alloc);
    for currency in currencies {
        let sum = sum_of(view, available, account, *currency);
        docs.push(sum_doc(alloc, sum, *currency)?)?;
    }
    Ok(Doc::list(docs))
}

// The available or the pending balance of an account in a currency.
fn sum_of<V: View>(view: &V, available: bool, account: u64, currency: Currency) -> i64
    ensures { result ≡ balance_of available account currency (V.state view.now).time (V.state view.now).rows }
{
    if available {
        view.available(account, currency)
    } else {
        view.pending(account, currency)
    }
}

// A sum in a currency.
fn sum_doc(alloc: Global, sum: i64, currency: Currency) -> Result<Doc, NoMemory>
    ensures { IfOk result (λ doc. doc ≡ sum_doc sum currency) }
{
    let mut members = Members::new(alloc);
    members.number("amount", sum)?;
    members.text("currency", currency.code())?;
    Ok(members.done())
}
