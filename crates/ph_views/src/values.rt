//! The values that the documents of objects share, each put in one step: a step that can fail lets go of the members
//! that were put before it.
ghost use Rattle.std.specs.Prelude.{◌≡◌, [], ◌∷◌, ◌++◌, pos, min, ◌-◌, IfOk, OnOk, OnErr};
ghost use Rattle.ph_items.specs.Weights.{method_text};
ghost use Rattle.ph_json.specs.Values.{text_or_null};
ghost use Rattle.ph_views.specs.Values.{amount_or_null, moment_doc, printed_id, id_or_null, metadata_doc};

use ph_base::{Id, IdText, Kind, NoMemory, print_id};
use ph_items::{Metadata, PaymentMethod};
use ph_json::{Doc, Members};
use ph_money::Amount;
use std::alloc::Global;

const NUMBERS: u64 = 10_000_000_000_000_000;

/// Puts an amount of money at the end, in minor units of its currency.
pub fn put_amount(members: &mut Members, key: &str, amount: Amount) -> Result<(), NoMemory>
    ensures ok { OnOk result (members.new ≡ members.old ++ (key.now, Doc.Number (pos amount)) ∷ []) }
    ensures err { OnErr result (members.new ≡ members.old) }
{
    members.number(key, amount.units() as i64)
}

/// Puts an amount of money at the end, in minor units of its currency, or null where there is none.
pub fn put_amount_or_null(
    members: &mut Members,
    key: &str,
    amount: Option<Amount>,
) -> Result<(), NoMemory>
    ensures ok { OnOk result (members.new ≡ members.old ++ (key.now, amount_or_null amount) ∷ []) }
    ensures err { OnErr result (members.new ≡ members.old) }
{
    match amount {
        None => members.null(key),
        Some(amount) => put_amount(members, key, amount),
    }
}

/// Puts a moment at the end, in seconds since 1970.
pub fn put_moment(members: &mut Members, key: &str, moment: u64) -> Result<(), NoMemory>
    ensures ok { OnOk result (members.new ≡ members.old ++ (key.now, moment_doc moment) ∷ []) }
    ensures err { OnErr result (members.new ≡ members.old) }
{
    members.number(key, moment.min(i64::MAX as u64) as i64)
}

/// The printed id of an object: what the ids of its kind begin with, and the last sixteen digits of its number,
/// which are all that the number of an object has. It takes no memory.
#[tactic(auto, using(crate::proofs::IdLemmas::padded_sixteen), unfolding(crate::specs::Values::printed_id))]
pub fn printed_id(kind: Kind, number: u64) -> IdText
    ensures { result ≡ printed_id kind number }
{
    print_id(Id {
        kind,
        number: number % NUMBERS,
    })
}

/// Puts the printed id of an object at the end.
pub fn put_id(members: &mut Members, key: &str, kind: Kind, number: u64) -> Result<(), NoMemory>
    ensures ok { OnOk result (members.new ≡ members.old ++ (key.now, Doc.Text (printed_id kind number)) ∷ []) }
    ensures err { OnErr result (members.new ≡ members.old) }
{
    members.text(key, printed_id(kind, number).as_slice())
}

/// Puts the printed id of an object at the end, or null where there is none.
pub fn put_id_or_null(
    members: &mut Members,
    key: &str,
    kind: Kind,
    number: Option<u64>,
) -> Result<(), NoMemory>
    ensures ok { OnOk result (members.new ≡ members.old ++ (key.now, id_or_null kind number) ∷ []) }
    ensures err { OnErr result (members.new ≡ members.old) }
{
    match number {
        None => members.null(key),
        Some(number) => put_id(members, key, kind, number),
    }
}

/// Puts the name of a payment method at the end, or null where there is none.
pub fn put_method(
    members: &mut Members,
    key: &str,
    method: &Option<PaymentMethod>,
) -> Result<(), NoMemory>
    ensures ok { OnOk result (members.new ≡ members.old ++ (key.now, text_or_null (method_text method.now)) ∷ []) }
    ensures err { OnErr result (members.new ≡ members.old) }
{
    match method {
        None => members.null(key),
        Some(method) => members.text(key, method.text.as_slice()),
    }
}

/// Puts metadata at the end: an object with a text for each name.
pub fn put_metadata(
    alloc: Global,
    members: &mut Members,
    key: &str,
    metadata: &Metadata,
) -> Result<(), NoMemory>
    ensures ok { OnOk result (members.new ≡ members.old ++ (key.now, metadata_doc metadata.now) ∷ []) }
    ensures err { OnErr result (members.new ≡ members.old) }
{
    let texts = texts(alloc, metadata)?;
    members.put(key, texts)
}

// An object with a text for each name.
fn texts(alloc: Global, metadata: &Metadata) -> Result<Doc, NoMemory>
    ensures { IfOk result (λ doc. doc ≡ metadata_doc metadata.now) }
{
    let mut members = Members::new(alloc);
    for pair in metadata.pairs() {
        let text = Doc::text_of(alloc, pair.value.as_slice())?;
        members.put_at(pair.key.as_slice(), text)?;
    }
    Ok(members.done())
}
