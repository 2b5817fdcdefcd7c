//! Look-ups that read the rows one by one.
ghost use Rattle.std.specs.Prelude.{◌≡◌, ◌<◌, ◌^◌, ◌∷◌, [], length};
ghost use Rattle.std.specs.Option.{option_copied};
ghost use Rattle.ph_rows.specs.Rows.{row_at, latest_of, is_first_of, greater, lesser, newest_object, oldest_object, newest_of, oldest_of};
ghost use Rattle.ph_rows.specs.Balances.{balance_of};

use crate::rows::Row;
use ph_base::Kind;
use ph_items::kind_number;
use ph_money::Currency;

/// The row of a place.
pub fn row(rows: &[Row], place: u64) -> Option<&Row>
    ensures { option_copied result ≡ row_at place rows.now }
{
    if place == 0 {
        None
    } else {
        rows.get(place as usize - 1)
    }
}

/// The last version of an object.
pub fn latest(rows: &[Row], object: u64) -> Option<&Row>
    ensures { option_copied result ≡ latest_of object rows.now }
{
    let mut found = None;
    for row in rows {
        if row.object == object {
            found = Some(row);
        }
    }
    found
}

// Whether a row is the first version of an object of the account and kind.
fn is_first(row: &Row, account: u64, kind: Kind) -> bool
    ensures { result ≡ is_first_of account kind row.now }
{
    row.object == row.place
        && row.account == account
        && kind_number(row.item.kind()) == kind_number(kind)
}

// The greater of a number found before, if one was, and another.
fn greater_of(found: Option<u64>, number: u64) -> u64
    ensures { result ≡ greater found number }
{
    match found {
        Some(best) => best.max(number),
        None => number,
    }
}

// The lesser of a number found before, if one was, and another.
fn lesser_of(found: Option<u64>, number: u64) -> u64
    ensures { result ≡ lesser found number }
{
    match found {
        Some(best) => best.min(number),
        None => number,
    }
}

// The greatest number below a bound of an object of the account and kind.
fn greatest_below(rows: &[Row], account: u64, kind: Kind, below: u64) -> Option<u64>
    ensures { result ≡ newest_object account kind below rows.now }
{
    let mut found = None;
    for row in rows {
        if is_first(row, account, kind) && row.object < below {
            found = Some(greater_of(found, row.object));
        }
    }
    found
}

// The least number above a bound of an object of the account and kind.
fn least_above(rows: &[Row], account: u64, kind: Kind, above: u64) -> Option<u64>
    ensures { result ≡ oldest_object account kind above rows.now }
{
    let mut found = None;
    for row in rows {
        if is_first(row, account, kind) && above < row.object {
            found = Some(lesser_of(found, row.object));
        }
    }
    found
}

/// The last version of the newest object of the account and kind below a bound.
pub fn newest(rows: &[Row], account: u64, kind: Kind, below: u64) -> Option<&Row>
    ensures { option_copied result ≡ newest_of account kind below rows.now }
{
    match greatest_below(rows, account, kind, below) {
        Some(object) => latest(rows, object),
        None => None,
    }
}

/// The last version of the oldest object of the account and kind above a bound.
pub fn oldest(rows: &[Row], account: u64, kind: Kind, above: u64) -> Option<&Row>
    ensures { option_copied result ≡ oldest_of account kind above rows.now }
{
    match least_above(rows, account, kind, above) {
        Some(object) => latest(rows, object),
        None => None,
    }
}

// What one row moves on a balance.
fn moved(available: bool, row: &Row, account: u64, currency: Currency, time: u64) -> i32
    ensures { result ≡ balance_of available account currency time (row.now ∷ []) }
{
    if row.account != account {
        return 0;
    }
    let Some(movement) = row.item.movement() else {
        return 0;
    };
    if !movement.is_in(currency) {
        return 0;
    }
    let counts = if available {
        movement.available_on <= time
    } else {
        time < movement.available_on
    };
    if counts { movement.net } else { 0 }
}

/// The available or (false) the pending balance of an account in a currency, at a time.
pub fn balance(available: bool, rows: &[Row], account: u64, currency: Currency, time: u64) -> i64
    requires { length rows.now < 2 ^ 32 }
    ensures { result ≡ balance_of available account currency time rows.now }
{
    let mut sum: i64 = 0;
    for row in rows {
        sum += moved(available, row, account, currency, time) as i64;
    }
    sum
}
