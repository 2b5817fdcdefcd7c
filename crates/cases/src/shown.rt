//! Rows as lines of words.
//!
//! A field of a version stands as `NAME=VALUE`, and is left out where it says nothing: an amount of 0, or what isn't
//! there. Bytes of a text outside `!` to `~` stand as `\xHH`, and a backslash as `\\`.

use ph_base::{Bytes, Decline, Method};
use ph_items::{
    Account, AccountType, Attempt, AttemptState, Charge, Dispute, Event, Fee, FeeRefund, Intent,
    Item, Metadata, Order, PaymentError, PaymentMethod, Refund, Reversal, Transfer, Txn,
};
use ph_money::{Amount, Currency, SignedAmount};
use ph_rows::Row;
use std::alloc::{AllocError, Global};

const DIGITS: &[u8; 16] = b"0123456789abcdef";

/// Adds a number in digits.
pub fn add_number(alloc: Global, shown: &mut Vec<u8>, number: u64) -> Result<(), AllocError> {
    let text = number.to_string(alloc)?;
    shown.extend_from_slice(text.as_bytes())
}

/// Adds a number in digits, with `-` before one below 0.
pub fn add_signed(alloc: Global, shown: &mut Vec<u8>, number: i64) -> Result<(), AllocError> {
    let text = number.to_string(alloc)?;
    shown.extend_from_slice(text.as_bytes())
}

/// Adds a blank and a word.
fn add_word(shown: &mut Vec<u8>, word: &[u8]) -> Result<(), AllocError> {
    shown.push(b' ')?;
    shown.extend_from_slice(word)
}

// Adds a byte of a text.
fn add_byte(shown: &mut Vec<u8>, byte: u8) -> Result<(), AllocError> {
    if byte == b'\\' {
        shown.extend_from_slice(b"\\\\")
    } else if byte > b' ' && byte < 127 {
        shown.push(byte)?;
        Ok(())
    } else {
        shown.extend_from_slice(b"\\x")?;
        shown.push(DIGITS[usize::from(byte / 16)])?;
        shown.push(DIGITS[usize::from(byte % 16)])?;
        Ok(())
    }
}

fn add_escaped(shown: &mut Vec<u8>, text: &[u8]) -> Result<(), AllocError> {
    for byte in text {
        add_byte(shown, *byte)?;
    }
    Ok(())
}

// Adds ` NAME=`.
fn add_name(shown: &mut Vec<u8>, name: &[u8]) -> Result<(), AllocError> {
    add_word(shown, name)?;
    shown.push(b'=')?;
    Ok(())
}

fn add_named_number(
    alloc: Global,
    shown: &mut Vec<u8>,
    name: &[u8],
    number: u64,
) -> Result<(), AllocError> {
    add_name(shown, name)?;
    add_number(alloc, shown, number)
}

fn add_named_word(shown: &mut Vec<u8>, name: &[u8], word: &[u8]) -> Result<(), AllocError> {
    add_name(shown, name)?;
    shown.extend_from_slice(word)
}

// Adds the number of an object, where there is one.
fn add_link(
    alloc: Global,
    shown: &mut Vec<u8>,
    name: &[u8],
    number: Option<u64>,
) -> Result<(), AllocError> {
    match number {
        Some(number) => add_named_number(alloc, shown, name, number),
        None => Ok(()),
    }
}

fn add_text(shown: &mut Vec<u8>, name: &[u8], text: &Option<Bytes>) -> Result<(), AllocError> {
    match text {
        Some(text) => {
            add_name(shown, name)?;
            add_escaped(shown, text.as_slice())
        }
        None => Ok(()),
    }
}

fn add_method(shown: &mut Vec<u8>, method: &Option<PaymentMethod>) -> Result<(), AllocError> {
    match method {
        Some(method) => {
            add_name(shown, b"method")?;
            add_escaped(shown, method.text.as_slice())
        }
        None => Ok(()),
    }
}

fn add_pairs(shown: &mut Vec<u8>, metadata: &Metadata) -> Result<(), AllocError> {
    for pair in metadata.pairs() {
        shown.extend_from_slice(b" meta.")?;
        add_escaped(shown, pair.key.as_slice())?;
        shown.push(b'=')?;
        add_escaped(shown, pair.value.as_slice())?;
    }
    Ok(())
}

// Adds an amount that isn't 0.
fn add_part(
    alloc: Global,
    shown: &mut Vec<u8>,
    name: &[u8],
    amount: Amount,
) -> Result<(), AllocError> {
    if amount.units() == 0 {
        Ok(())
    } else {
        add_named_number(alloc, shown, name, amount.units())
    }
}

fn add_amount(
    alloc: Global,
    shown: &mut Vec<u8>,
    amount: Amount,
    currency: Currency,
) -> Result<(), AllocError> {
    shown.push(b' ')?;
    add_number(alloc, shown, amount.units())?;
    add_word(shown, currency.code())
}

fn add_signed_amount(
    alloc: Global,
    shown: &mut Vec<u8>,
    amount: SignedAmount,
) -> Result<(), AllocError> {
    add_signed(alloc, shown, i64::from(amount.units()))
}

fn account_type(sort: AccountType) -> &'static [u8] {
    match sort {
        AccountType::Standard => b"standard",
        AccountType::Express => b"express",
        AccountType::Custom => b"custom",
    }
}

fn add_account(shown: &mut Vec<u8>, account: &Account) -> Result<(), AllocError> {
    shown.extend_from_slice(b" account")?;
    add_word(shown, account_type(account.sort))?;
    add_text(shown, b"email", &account.email)?;
    add_pairs(shown, &account.metadata)
}

fn error_word(error: PaymentError) -> &'static [u8] {
    match error {
        PaymentError::Declined(Decline::Generic) => b"generic",
        PaymentError::Declined(Decline::NoFunds) => b"no_funds",
        PaymentError::NotAuthenticated => b"not_authenticated",
    }
}

// Adds the reason of a payment intent that was canceled, and why its last confirmation didn't pay it.
fn add_reasons(shown: &mut Vec<u8>, intent: &Intent) -> Result<(), AllocError> {
    match intent.cancellation_reason {
        Some(reason) => add_named_word(shown, b"reason", reason.text())?,
        None => {}
    }
    match intent.last_payment_error {
        Some(error) => add_named_word(shown, b"error", error_word(error)),
        None => Ok(()),
    }
}

// Adds an application fee that is named, also one of 0.
fn add_fee_amount(
    alloc: Global,
    shown: &mut Vec<u8>,
    fee: Option<Amount>,
) -> Result<(), AllocError> {
    match fee {
        Some(fee) => add_named_number(alloc, shown, b"fee", fee.units()),
        None => Ok(()),
    }
}

fn add_intent(alloc: Global, shown: &mut Vec<u8>, intent: &Intent) -> Result<(), AllocError> {
    shown.extend_from_slice(b" intent")?;
    add_word(shown, intent.status.text())?;
    add_amount(alloc, shown, intent.amount, intent.currency)?;
    add_word(shown, intent.capture_method.text())?;
    add_part(alloc, shown, b"capturable", intent.amount_capturable)?;
    add_part(alloc, shown, b"received", intent.amount_received)?;
    add_method(shown, &intent.payment_method)?;
    add_reasons(shown, intent)?;
    add_link(alloc, shown, b"charge", intent.latest_charge)?;
    add_fee_amount(alloc, shown, intent.application_fee_amount)?;
    add_link(alloc, shown, b"destination", intent.destination)?;
    add_text(shown, b"description", &intent.description)?;
    add_text(shown, b"group", &intent.transfer_group)?;
    add_pairs(shown, &intent.metadata)
}

fn state_word(state: AttemptState) -> &'static [u8] {
    match state {
        AttemptState::Live => b"live",
        AttemptState::Parked => b"parked",
        AttemptState::Approved => b"approved",
        AttemptState::Declined => b"declined",
        AttemptState::Challenged => b"challenged",
    }
}

fn add_method_word(alloc: Global, shown: &mut Vec<u8>, method: Method) -> Result<(), AllocError> {
    match method {
        Method::Visa => add_word(shown, b"visa"),
        Method::Declined => add_word(shown, b"declined"),
        Method::NoFunds => add_word(shown, b"no_funds"),
        Method::Challenge => add_word(shown, b"challenge"),
        Method::Authenticated => add_word(shown, b"authenticated"),
        Method::Dispute => add_word(shown, b"dispute"),
        Method::Bypass => add_word(shown, b"bypass"),
        Method::Slow(asks) => {
            add_word(shown, b"slow_")?;
            add_number(alloc, shown, u64::from(asks))
        }
        Method::Lost => add_word(shown, b"lost"),
    }
}

fn add_order(alloc: Global, shown: &mut Vec<u8>, order: Order) -> Result<(), AllocError> {
    add_amount(alloc, shown, order.amount, order.currency)?;
    add_method_word(alloc, shown, order.method)?;
    add_named_number(alloc, shown, b"reference", order.reference)
}

fn add_attempt(alloc: Global, shown: &mut Vec<u8>, attempt: &Attempt) -> Result<(), AllocError> {
    shown.extend_from_slice(b" attempt")?;
    add_word(shown, state_word(attempt.state))?;
    add_order(alloc, shown, attempt.order)?;
    add_named_number(alloc, shown, b"intent", attempt.intent)?;
    add_named_number(alloc, shown, b"opener", attempt.opener)
}

// Adds what a charge keeps of its capture.
fn add_capture(alloc: Global, shown: &mut Vec<u8>, charge: &Charge) -> Result<(), AllocError> {
    match charge.capture {
        Some(capture) => {
            add_named_number(alloc, shown, b"txn", capture.transaction)?;
            add_link(alloc, shown, b"moved", capture.transfer)?;
            add_link(alloc, shown, b"taken", capture.fee)?;
            add_named_number(alloc, shown, b"on", capture.available_on)
        }
        None => Ok(()),
    }
}

fn add_charge(alloc: Global, shown: &mut Vec<u8>, charge: &Charge) -> Result<(), AllocError> {
    shown.extend_from_slice(b" charge")?;
    add_word(shown, charge.status.text())?;
    add_amount(alloc, shown, charge.amount, charge.currency)?;
    add_part(alloc, shown, b"captured", charge.amount_captured)?;
    add_part(alloc, shown, b"refunded", charge.amount_refunded)?;
    add_part(alloc, shown, b"transferred", charge.amount_transferred)?;
    add_link(alloc, shown, b"intent", charge.sort.intent())?;
    add_link(alloc, shown, b"transfer", charge.sort.transfer())?;
    add_method(shown, &charge.payment_method)?;
    add_fee_amount(alloc, shown, charge.application_fee_amount)?;
    add_link(alloc, shown, b"destination", charge.destination)?;
    add_capture(alloc, shown, charge)?;
    add_link(alloc, shown, b"dispute", charge.dispute)?;
    add_text(shown, b"description", &charge.description)?;
    add_text(shown, b"group", &charge.transfer_group)?;
    add_pairs(shown, &charge.metadata)
}

fn add_refund(alloc: Global, shown: &mut Vec<u8>, refund: &Refund) -> Result<(), AllocError> {
    shown.extend_from_slice(b" refund")?;
    add_amount(alloc, shown, refund.amount, refund.currency)?;
    add_named_number(alloc, shown, b"charge", refund.charge)?;
    add_link(alloc, shown, b"intent", refund.intent)?;
    add_named_number(alloc, shown, b"txn", refund.transaction)?;
    add_link(alloc, shown, b"reversal", refund.reversal)?;
    match refund.reason {
        Some(reason) => add_named_word(shown, b"reason", reason.text())?,
        None => {}
    }
    add_pairs(shown, &refund.metadata)
}

fn add_dispute(alloc: Global, shown: &mut Vec<u8>, dispute: &Dispute) -> Result<(), AllocError> {
    shown.extend_from_slice(b" dispute")?;
    add_word(shown, dispute.status.text())?;
    add_amount(alloc, shown, dispute.amount, dispute.currency)?;
    add_named_number(alloc, shown, b"charge", dispute.charge)?;
    add_link(alloc, shown, b"intent", dispute.intent)?;
    add_text(shown, b"evidence", &dispute.evidence)
}

fn add_transfer(alloc: Global, shown: &mut Vec<u8>, transfer: &Transfer) -> Result<(), AllocError> {
    shown.extend_from_slice(b" transfer")?;
    add_amount(alloc, shown, transfer.amount, transfer.currency)?;
    add_part(alloc, shown, b"reversed", transfer.amount_reversed)?;
    add_named_number(alloc, shown, b"destination", transfer.destination)?;
    add_named_number(alloc, shown, b"payment", transfer.payment)?;
    add_link(alloc, shown, b"charge", transfer.source)?;
    add_named_number(alloc, shown, b"txn", transfer.transaction)?;
    add_named_number(alloc, shown, b"on", transfer.available_on)?;
    add_text(shown, b"description", &transfer.description)?;
    add_text(shown, b"group", &transfer.transfer_group)?;
    add_pairs(shown, &transfer.metadata)
}

fn add_reversal(alloc: Global, shown: &mut Vec<u8>, reversal: &Reversal) -> Result<(), AllocError> {
    shown.extend_from_slice(b" reversal")?;
    add_amount(alloc, shown, reversal.amount, reversal.currency)?;
    add_named_number(alloc, shown, b"transfer", reversal.transfer)?;
    add_link(alloc, shown, b"refund", reversal.refund)?;
    add_named_number(alloc, shown, b"txn", reversal.transaction)?;
    add_pairs(shown, &reversal.metadata)
}

fn add_fee(alloc: Global, shown: &mut Vec<u8>, fee: &Fee) -> Result<(), AllocError> {
    shown.extend_from_slice(b" fee")?;
    add_amount(alloc, shown, fee.amount, fee.currency)?;
    add_part(alloc, shown, b"refunded", fee.amount_refunded)?;
    add_named_number(alloc, shown, b"from", fee.account)?;
    add_named_number(alloc, shown, b"charge", fee.charge)?;
    add_named_number(alloc, shown, b"txn", fee.transaction)?;
    add_named_number(alloc, shown, b"on", fee.available_on)
}

fn add_fee_refund(
    alloc: Global,
    shown: &mut Vec<u8>,
    fee_refund: &FeeRefund,
) -> Result<(), AllocError> {
    shown.extend_from_slice(b" fee_refund")?;
    add_amount(alloc, shown, fee_refund.amount, fee_refund.currency)?;
    add_named_number(alloc, shown, b"fee", fee_refund.fee)?;
    add_named_number(alloc, shown, b"txn", fee_refund.transaction)?;
    add_pairs(shown, &fee_refund.metadata)
}

fn add_txn(alloc: Global, shown: &mut Vec<u8>, txn: &Txn) -> Result<(), AllocError> {
    shown.extend_from_slice(b" txn")?;
    add_word(shown, txn.sort.text())?;
    shown.push(b' ')?;
    add_signed_amount(alloc, shown, txn.amount)?;
    add_word(shown, txn.currency.code())?;
    add_name(shown, b"fee")?;
    add_signed_amount(alloc, shown, txn.fee)?;
    add_named_number(alloc, shown, b"on", txn.available_on)?;
    add_named_number(alloc, shown, b"source", txn.source.number())
}

fn add_event(alloc: Global, shown: &mut Vec<u8>, event: &Event) -> Result<(), AllocError> {
    shown.extend_from_slice(b" event")?;
    add_word(shown, event.sort.text())?;
    add_named_number(alloc, shown, b"of", event.object)?;
    add_text(shown, b"key", &event.key)
}

fn add_item(alloc: Global, shown: &mut Vec<u8>, item: &Item) -> Result<(), AllocError> {
    match item {
        Item::Account(account) => add_account(shown, account),
        Item::Intent(intent) => add_intent(alloc, shown, intent),
        Item::Attempt(attempt) => add_attempt(alloc, shown, attempt),
        Item::Charge(charge) => add_charge(alloc, shown, charge),
        Item::Refund(refund) => add_refund(alloc, shown, refund),
        Item::Dispute(dispute) => add_dispute(alloc, shown, dispute),
        Item::Transfer(transfer) => add_transfer(alloc, shown, transfer),
        Item::Reversal(reversal) => add_reversal(alloc, shown, reversal),
        Item::Fee(fee) => add_fee(alloc, shown, fee),
        Item::FeeRefund(fee_refund) => add_fee_refund(alloc, shown, fee_refund),
        Item::Txn(txn) => add_txn(alloc, shown, txn),
        Item::Event(event) => add_event(alloc, shown, event),
    }
}

/// Adds a row: its place, its object's number, and what the version says.
pub fn add_row(alloc: Global, shown: &mut Vec<u8>, row: &Row) -> Result<(), AllocError> {
    add_number(alloc, shown, row.place)?;
    shown.push(b' ')?;
    add_number(alloc, shown, row.object)?;
    if row.account != 1 {
        add_named_number(alloc, shown, b"account", row.account)?;
    }
    add_item(alloc, shown, &row.item)
}
