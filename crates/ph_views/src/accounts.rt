//! Accounts.
ghost use Rattle.std.specs.Prelude.{◌≡◌, IfOk};
ghost use Rattle.ph_views.specs.Accounts.{account_doc, holder_members, standing_members};

use crate::values::{put_id, put_metadata, put_moment};
use ph_base::{Kind, NoMemory};
use ph_items::Account;
use ph_json::{Doc, Members};
use std::alloc::Global;

/// The document of a version of an account that was created at a moment and has a number.
#[tactic(auto, unfolding(crate::specs::Accounts::account_doc))]
pub fn account_doc(
    alloc: Global,
    created: u64,
    object: u64,
    account: &Account,
) -> Result<Doc, NoMemory>
    ensures { IfOk result (λ doc. doc ≡ account_doc created object account.now) }
{
    let mut members = holder(alloc, account)?;
    members.append(standing(alloc, created, object)?)?;
    Ok(members.done())
}

// Whose it is.
#[tactic(auto, unfolding(crate::specs::Accounts::holder_members))]
fn holder(alloc: Global, account: &Account) -> Result<Members, NoMemory>
    ensures { IfOk result (λ members. members ≡ holder_members account.now) }
{
    let mut members = Members::new(alloc);
    members.text_or_null("email", &account.email)?;
    put_metadata(alloc, &mut members, "metadata", &account.metadata)?;
    members.text("type", account.sort.text())?;
    Ok(members)
}

// Which one, and what it may do.
#[tactic(auto, unfolding(crate::specs::Accounts::standing_members))]
fn standing(alloc: Global, created: u64, object: u64) -> Result<Members, NoMemory>
    ensures { IfOk result (λ members. members ≡ standing_members created object) }
{
    let mut members = Members::new(alloc);
    members.truth("charges_enabled", true)?;
    put_moment(&mut members, "created", created)?;
    put_id(&mut members, "id", Kind::Account, object)?;
    members.word("object", "account")?;
    members.truth("payouts_enabled", true)?;
    Ok(members)
}
