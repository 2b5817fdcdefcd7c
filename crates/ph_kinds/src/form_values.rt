//! The values that a form gives under a name: none where nothing stands there, or the flaw of what does.
ghost use Rattle.std.specs.Prelude.{◌≡◌, ◌≢◌, IfErr, IfOk, IfSome, IsUtf8, Ok, Err, option_copied};
ghost use Rattle.ph_form.specs.Readers.{entries_at, has_below, text_at};
ghost use Rattle.ph_kinds.specs.Events.{events_in};
ghost use Rattle.ph_kinds.specs.Kind as kind;
ghost use Rattle.ph_kinds.specs.Metadata.{metadata_in};
ghost use Rattle.ph_kinds.specs.Values.{only_text, value_at};

use crate::authentication::Authentication;
use crate::characters::character_count;
use crate::events::{are_events, texts_of};
use crate::flaw::Flaw;
use crate::lists::Texts;
use crate::metadata::{Meta, is_metadata, pairs_of};
use crate::methods::read_method;
use crate::numbers::{read_amount, read_whole};
use crate::words::{
    read_account_type, read_authentication, read_cancellation_reason, read_capture_method,
    read_currency, read_refund_reason, read_truth,
};
use ph_address::{Address, read_address};
use ph_base::Bytes;
use ph_form::Form;
use ph_items::{AccountType, CancellationReason, CaptureMethod, PaymentMethod, RefundReason};
use ph_money::{Amount, Currency};
use std::alloc::Global;

/// The text under a name, none where nothing stands there, or a flaw where a map does.
fn only_text<'a>(form: &'a Form, name: &[u8], flaw: Flaw) -> Result<Option<&'a [u8]>, Flaw>
    ensures text { IfOk result (λ text. only_text flaw (text_at name.now form.now) (has_below name.now form.now) ≡ Ok (option_copied text)) }
    ensures utf8 { IfOk result (λ text. IfSome text (λ t. IsUtf8 t.now)) }
    ensures flaw { IfErr result (λ f. only_text flaw (text_at name.now form.now) (has_below name.now form.now) ≡ Err f) }
{
    match form.text(name) {
        Some(text) => Ok(Some(text)),
        None => {
            if form.has_below(name) {
                Err(flaw)
            } else {
                Ok(None)
            }
        }
    }
}

/// The amount under a name.
pub fn amount_at(form: &Form, name: &[u8]) -> Result<Option<Amount>, Flaw>
    ensures { result ≡ value_at kind.Amount name.now form.now }
{
    match only_text(form, name, Flaw::InvalidInteger)? {
        Some(text) => Ok(Some(read_amount(text)?)),
        None => Ok(None),
    }
}

/// The number under a name.
pub fn number_at(form: &Form, name: &[u8]) -> Result<Option<u64>, Flaw>
    ensures { result ≡ value_at kind.Number name.now form.now }
{
    match only_text(form, name, Flaw::InvalidInteger)? {
        Some(text) => Ok(Some(read_whole(text)?)),
        None => Ok(None),
    }
}

/// The currency under a name.
pub fn currency_at(form: &Form, name: &[u8]) -> Result<Option<Currency>, Flaw>
    ensures { result ≡ value_at kind.Currency name.now form.now }
{
    match only_text(form, name, Flaw::InvalidValue)? {
        Some(text) => Ok(Some(read_currency(text)?)),
        None => Ok(None),
    }
}

/// The truth value under a name.
pub fn truth_at(form: &Form, name: &[u8]) -> Result<Option<bool>, Flaw>
    ensures { result ≡ value_at kind.Truth name.now form.now }
{
    match only_text(form, name, Flaw::InvalidValue)? {
        Some(text) => Ok(Some(read_truth(text)?)),
        None => Ok(None),
    }
}

/// The type of account under a name.
pub fn account_type_at(form: &Form, name: &[u8]) -> Result<Option<AccountType>, Flaw>
    ensures { result ≡ value_at kind.AccountType name.now form.now }
{
    match only_text(form, name, Flaw::InvalidValue)? {
        Some(text) => Ok(Some(read_account_type(text)?)),
        None => Ok(None),
    }
}

/// The capture method under a name.
pub fn capture_method_at(form: &Form, name: &[u8]) -> Result<Option<CaptureMethod>, Flaw>
    ensures { result ≡ value_at kind.CaptureMethod name.now form.now }
{
    match only_text(form, name, Flaw::InvalidValue)? {
        Some(text) => Ok(Some(read_capture_method(text)?)),
        None => Ok(None),
    }
}

/// The reason for a cancel under a name.
pub fn cancellation_reason_at(form: &Form, name: &[u8]) -> Result<Option<CancellationReason>, Flaw>
    ensures { result ≡ value_at kind.CancellationReason name.now form.now }
{
    match only_text(form, name, Flaw::InvalidValue)? {
        Some(text) => Ok(Some(read_cancellation_reason(text)?)),
        None => Ok(None),
    }
}

/// The reason for a refund under a name.
pub fn refund_reason_at(form: &Form, name: &[u8]) -> Result<Option<RefundReason>, Flaw>
    ensures { result ≡ value_at kind.RefundReason name.now form.now }
{
    match only_text(form, name, Flaw::InvalidValue)? {
        Some(text) => Ok(Some(read_refund_reason(text)?)),
        None => Ok(None),
    }
}

/// What an authentication comes to, under a name.
pub fn authentication_at(form: &Form, name: &[u8]) -> Result<Option<Authentication>, Flaw>
    ensures { result ≡ value_at kind.Authentication name.now form.now }
{
    match only_text(form, name, Flaw::InvalidValue)? {
        Some(text) => Ok(Some(read_authentication(text)?)),
        None => Ok(None),
    }
}

/// The text of at most so many characters (Unicode scalar values) under a name.
pub fn text_at(alloc: Global, form: &Form, name: &[u8], most: usize) -> Result<Option<Bytes>, Flaw>
    ensures value { IfOk result (λ text. value_at (kind.Text most) name.now form.now ≡ Ok text) }
    ensures flaw { IfErr result (λ flaw. flaw ≢ Flaw.NoMemory → value_at (kind.Text most) name.now form.now ≡ Err flaw) }
{
    match only_text(form, name, Flaw::InvalidValue)? {
        Some(text) => {
            if character_count(text) <= most {
                Ok(Some(Bytes::from_slice(alloc, text)?))
            } else {
                Err(Flaw::InvalidValue)
            }
        }
        None => Ok(None),
    }
}

/// The text under a name that is read as an id when the call is carried out.
pub fn id_at(alloc: Global, form: &Form, name: &[u8]) -> Result<Option<Bytes>, Flaw>
    ensures value { IfOk result (λ text. value_at kind.Id name.now form.now ≡ Ok text) }
    ensures flaw { IfErr result (λ flaw. flaw ≢ Flaw.NoMemory → value_at kind.Id name.now form.now ≡ Err flaw) }
{
    match only_text(form, name, Flaw::InvalidValue)? {
        Some(text) => Ok(Some(Bytes::from_slice(alloc, text)?)),
        None => Ok(None),
    }
}

/// The payment method under a name, with its text.
pub fn payment_method_at(
    alloc: Global,
    form: &Form,
    name: &[u8],
) -> Result<Option<PaymentMethod>, Flaw>
    ensures value { IfOk result (λ method. value_at kind.Method name.now form.now ≡ Ok method) }
    ensures flaw { IfErr result (λ flaw. flaw ≢ Flaw.NoMemory → value_at kind.Method name.now form.now ≡ Err flaw) }
{
    match only_text(form, name, Flaw::InvalidValue)? {
        Some(text) => {
            let method = read_method(text)?;
            let text = Bytes::from_slice(alloc, text)?;
            Ok(Some(PaymentMethod { text, method }))
        }
        None => Ok(None),
    }
}

/// The address under a name.
pub fn address_at(alloc: Global, form: &Form, name: &[u8]) -> Result<Option<Address>, Flaw>
    ensures value { IfOk result (λ address. value_at kind.Address name.now form.now ≡ Ok address) }
    ensures flaw { IfErr result (λ flaw. flaw ≢ Flaw.NoMemory → value_at kind.Address name.now form.now ≡ Err flaw) }
{
    match only_text(form, name, Flaw::InvalidValue)? {
        Some(text) => match read_address(alloc, text)? {
            Some(address) => Ok(Some(address)),
            None => Err(Flaw::InvalidValue),
        },
        None => Ok(None),
    }
}

/// What the map under a name says of metadata.
fn metadata_of(alloc: Global, form: &Form, name: &[u8]) -> Result<Meta, Flaw>
    ensures value { IfOk result (λ meta. metadata_in (entries_at name.now form.now) ≡ Ok meta) }
    ensures flaw { IfErr result (λ flaw. flaw ≢ Flaw.NoMemory → metadata_in (entries_at name.now form.now) ≡ Err flaw) }
{
    match form.entries(alloc, name)? {
        Some(entries) => {
            if is_metadata(&entries) {
                Ok(Meta::Set(pairs_of(alloc, entries)?))
            } else {
                Err(Flaw::InvalidValue)
            }
        }
        None => Err(Flaw::InvalidValue),
    }
}

/// What the form says of metadata under a name.
pub fn metadata_at(alloc: Global, form: &Form, name: &[u8]) -> Result<Option<Meta>, Flaw>
    ensures value { IfOk result (λ meta. value_at kind.Metadata name.now form.now ≡ Ok meta) }
    ensures flaw { IfErr result (λ flaw. flaw ≢ Flaw.NoMemory → value_at kind.Metadata name.now form.now ≡ Err flaw) }
{
    match form.text(name) {
        Some(text) => {
            if text.is_empty() {
                Ok(Some(Meta::Clear))
            } else {
                Err(Flaw::InvalidValue)
            }
        }
        None => {
            if form.has_below(name) {
                Ok(Some(metadata_of(alloc, form, name)?))
            } else {
                Ok(None)
            }
        }
    }
}

/// The event types of the map under a name.
fn events_of(alloc: Global, form: &Form, name: &[u8]) -> Result<Texts, Flaw>
    ensures value { IfOk result (λ texts. events_in (entries_at name.now form.now) ≡ Ok texts) }
    ensures flaw { IfErr result (λ flaw. flaw ≢ Flaw.NoMemory → events_in (entries_at name.now form.now) ≡ Err flaw) }
{
    match form.entries(alloc, name)? {
        Some(entries) => {
            if are_events(&entries) {
                Ok(texts_of(alloc, entries)?)
            } else {
                Err(Flaw::InvalidValue)
            }
        }
        None => Err(Flaw::InvalidValue),
    }
}

/// The list of event types under a name.
pub fn events_at(alloc: Global, form: &Form, name: &[u8]) -> Result<Option<Texts>, Flaw>
    ensures value { IfOk result (λ texts. value_at kind.Events name.now form.now ≡ Ok texts) }
    ensures flaw { IfErr result (λ flaw. flaw ≢ Flaw.NoMemory → value_at kind.Events name.now form.now ≡ Err flaw) }
{
    if form.text(name).is_some() {
        Err(Flaw::InvalidValue)
    } else if form.has_below(name) {
        Ok(Some(events_of(alloc, form, name)?))
    } else {
        Ok(None)
    }
}
