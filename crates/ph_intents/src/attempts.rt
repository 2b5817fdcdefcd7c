//! Attempts: the one that a call begins.
ghost use Rattle.std.specs.Prelude.{◌≡◌, IfOk, OnOk};
ghost use Rattle.ph_facts.specs.Touches.{Cause};
ghost use Rattle.ph_intents.specs.Attempts.{attempted, new_order, with_new_attempt};
ghost use Rattle.ph_intents.specs.Begun.{GivesBegun};

use crate::begins::Begun;
use crate::versions::add_version;
use ph_base::{Method, NoMemory};
use ph_errors::Refusal;
use ph_items::{Attempt, AttemptState, Intent, Item, Order};
use ph_money::{Amount, Currency};
use ph_rows::Batch;

// The first version of an attempt under an order, which an entry begins.
fn begun(intent: u64, order: &Order, opener: u64) -> Item
    ensures { result ≡ Item.Attempt (record { intent = intent; order = order.now; state = AttemptState.Live; opener = opener }) }
{
    Item::Attempt(Attempt {
        intent,
        order: *order,
        state: AttemptState::Live,
        opener,
    })
}

/// Adds a new attempt to have a payment intent paid, an amount by a method: live, under its own number as the
/// reference, begun by the batch's entry. The answer is its order.
pub fn add_attempt(
    account: u64,
    intent: u64,
    amount: Amount,
    currency: Currency,
    method: Method,
    batch: &mut Batch,
) -> Result<Order, NoMemory>
    ensures order { IfOk result (λ order. order ≡ new_order amount currency method batch.old) }
    ensures batch { OnOk result (batch.new ≡ with_new_attempt account intent amount currency method batch.old) }
{
    // No memory holds so many rows that 64 bits don't number them.
    let Some(number) = batch.count().checked_add(1) else {
        return Err(NoMemory);
    };
    let order = Order {
        reference: number,
        amount,
        currency,
        method,
    };
    let attempt = begun(intent, &order, batch.entry());
    batch.add(account, attempt)?;
    Ok(order)
}

/// Adds a further version of a payment intent, and a new attempt to have it paid by a method.
pub fn add_attempted(
    account: u64,
    object: u64,
    intent: Intent,
    method: Method,
    batch: &mut Batch,
) -> Result<Begun, Refusal>
    ensures { (cause : Cause) → GivesBegun (attempted cause account object intent method batch.old) batch.old result batch.new }
{
    let amount = intent.amount;
    let currency = intent.currency;
    add_version(account, object, intent, batch)?;
    let order = add_attempt(account, object, amount, currency, method, batch)?;
    Ok(Begun { object, order })
}
