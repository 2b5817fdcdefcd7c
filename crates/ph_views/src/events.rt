//! Events.
ghost use Rattle.std.specs.Prelude.{◌≡◌, [], ◌∷◌, ◌++◌, IfOk, OnOk, OnErr, codes};
ghost use Rattle.ph_json.specs.Values.{member_if};
ghost use Rattle.ph_views.specs.Events.{event_doc, connected_doc, request_doc, origin_members, news_members};

use crate::values::{put_id, put_moment};
use ph_base::{Bytes, Kind, NoMemory};
use ph_items::{Event, PLATFORM};
use ph_json::{Doc, Members};
use std::alloc::Global;

/// The document of an event that happened at a moment, has a number, is of an account and tells of this object.
#[tactic(auto, unfolding(crate::specs::Events::event_doc))]
pub fn event_doc(
    alloc: Global,
    created: u64,
    object: u64,
    account: u64,
    event: &Event,
    subject: Doc,
) -> Result<Doc, NoMemory>
    ensures { IfOk result (λ doc. doc ≡ event_doc created object account event.now subject) }
{
    let mut members = origin(alloc, created, object, account)?;
    members.append(news(alloc, event, subject)?)?;
    Ok(members.done())
}

// Which one, when, and of whom.
#[tactic(auto, unfolding(crate::specs::Events::origin_members))]
fn origin(alloc: Global, created: u64, object: u64, account: u64) -> Result<Members, NoMemory>
    ensures { IfOk result (λ members. members ≡ origin_members created object account) }
{
    let mut members = Members::new(alloc);
    put_moment(&mut members, "created", created)?;
    put_id(&mut members, "id", Kind::Event, object)?;
    members.truth("livemode", false)?;
    members.word("object", "event")?;
    put_connected(&mut members, "account", account)?;
    Ok(members)
}

// What happened, to which object and by which request. No deliveries are made yet.
#[tactic(auto, unfolding(crate::specs::Events::news_members))]
fn news(alloc: Global, event: &Event, subject: Doc) -> Result<Members, NoMemory>
    ensures { IfOk result (λ members. members ≡ news_members event.now subject) }
{
    let data = data(alloc, subject)?;
    let mut members = Members::new(alloc);
    members.put("data", data)?;
    members.number("pending_webhooks", 0)?;
    put_request(alloc, &mut members, "request", &event.key)?;
    members.text("type", event.sort.text())?;
    Ok(members)
}

// Puts the account that an event of a connected account names.
fn put_connected(members: &mut Members, key: &str, account: u64) -> Result<(), NoMemory>
    ensures ok { OnOk result (members.new ≡ members.old ++ member_if key.now (connected_doc account)) }
    ensures err { OnErr result (members.new ≡ members.old) }
{
    if account == PLATFORM {
        Ok(())
    } else {
        put_id(members, key, Kind::Account, account)
    }
}

// The object that an event tells of, as its data.
fn data(alloc: Global, subject: Doc) -> Result<Doc, NoMemory>
    ensures { IfOk result (λ doc. doc ≡ Doc.Object ((codes "object", subject) ∷ [])) }
{
    let mut members = Members::new(alloc);
    members.put("object", subject)?;
    Ok(members.done())
}

// Puts the request that made the event happen.
fn put_request(
    alloc: Global,
    members: &mut Members,
    key: &str,
    idempotency: &Option<Bytes>,
) -> Result<(), NoMemory>
    ensures ok { OnOk result (members.new ≡ members.old ++ (key.now, request_doc idempotency.now) ∷ []) }
    ensures err { OnErr result (members.new ≡ members.old) }
{
    let request = request(alloc, idempotency)?;
    members.put(key, request)
}

// The request that made the event happen.
fn request(alloc: Global, key: &Option<Bytes>) -> Result<Doc, NoMemory>
    ensures { IfOk result (λ doc. doc ≡ request_doc key.now) }
{
    let mut members = Members::new(alloc);
    members.null("id")?;
    members.text_or_null("idempotency_key", key)?;
    Ok(members.done())
}
