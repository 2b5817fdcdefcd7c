//! The create of a connected account.
ghost use Rattle.std.specs.Prelude.{◌≡◌, IfOk};
ghost use Rattle.ph_facts.specs.Outcomes.{Gives};
ghost use Rattle.ph_accounts.specs.Create.{create_outcome, new_account};

use ph_base::NoMemory;
use ph_calls::CreateAccount;
use ph_errors::{ApiError, Refusal};
use ph_items::{Account, AccountType, Item, PLATFORM, copy_text};
use ph_kinds::first_metadata;
use ph_rows::{Batch, View};
use std::alloc::Global;

// The first version of a connected account: each field from the call, or its default.
fn new_account(alloc: Global, call: &CreateAccount) -> Result<Account, NoMemory>
    ensures { IfOk result (λ account. account ≡ new_account call.now) }
{
    Ok(Account {
        sort: call.sort.unwrap_or(AccountType::Standard),
        email: copy_text(alloc, call.email.as_ref())?,
        metadata: first_metadata(alloc, call.metadata.as_ref())?,
    })
}

/// Adds a connected account, which belongs to the platform; no event tells of it. It is refused where the call is of a
/// connected account. The answer is the new account's number.
pub fn create<V: View>(
    alloc: Global,
    view: &V,
    account: u64,
    call: &CreateAccount,
    batch: &mut Batch,
) -> Result<u64, Refusal>
    ensures { Gives (create_outcome (V.state view.now).rows account call.now batch.old) batch.old result batch.new }
{
    if account != PLATFORM {
        return Err(Refusal::of(ApiError::platform_only(alloc)));
    }
    let made = new_account(alloc, call)?;
    let object = batch.add(PLATFORM, Item::Account(made))?;
    Ok(object)
}
