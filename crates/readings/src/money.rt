//! Currencies, amounts, fees and parts.

use crate::line::{Line, said, unknown};
use ph_base::NoMemory;
use ph_money::{Amount, Currency, SignedAmount, fee, part};
use std::alloc::Global;

/// `NAME | fee | CODE | AMOUNT`, `NAME | part | TOTAL | OF | WHOLE`, `NAME | least | CODE`: the currency and its least
/// amount, `NAME | signed | AMOUNT`: the amount given, and taken.
pub fn read(alloc: Global, line: Line) -> Result<Vec<u8>, NoMemory> {
    match line.field(1) {
        "fee" => fees(alloc, line),
        "part" => parts(alloc, line),
        "least" => least(alloc, line),
        "signed" => signed(alloc, line),
        _ => unknown(alloc),
    }
}

fn currency(line: Line) -> Option<Currency> {
    Currency::read(line.field(2).as_bytes())
}

fn fees(alloc: Global, line: Line) -> Result<Vec<u8>, NoMemory> {
    match (currency(line), Amount::try_new(line.number(3))) {
        (Some(currency), Some(amount)) => {
            Ok(fee(currency, amount).to_string(alloc)?.into_bytes())
        }
        _ => said(alloc, "none"),
    }
}

fn parts(alloc: Global, line: Line) -> Result<Vec<u8>, NoMemory> {
    let (total, of, whole) = (line.number(2), line.number(3), line.number(4));
    if total <= Amount::MOST && whole <= Amount::MOST && 0 < whole && of <= whole {
        Ok(part(total, of, whole).to_string(alloc)?.into_bytes())
    } else {
        said(alloc, "none")
    }
}

fn least(alloc: Global, line: Line) -> Result<Vec<u8>, NoMemory> {
    let Some(currency) = currency(line) else {
        return said(alloc, "none");
    };
    let least = currency.minimum().units();
    let mut out = Vec::from_slice(alloc, currency.code())?;
    out.extend_from_slice(format!(in alloc; " {least}")?.as_bytes())?;
    Ok(out)
}

fn signed(alloc: Global, line: Line) -> Result<Vec<u8>, NoMemory> {
    let Some(amount) = Amount::try_new(line.number(2)) else {
        return said(alloc, "none");
    };
    let (given, taken) = (SignedAmount::given(amount), SignedAmount::taken(amount));
    let same = if given == taken { " the same" } else { "" };
    Ok(format!(in alloc; "{} {}{same}", given.units(), taken.units())?.into_bytes())
}
