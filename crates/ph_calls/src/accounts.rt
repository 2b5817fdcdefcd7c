//! The create of a connected account.
ghost use Rattle.std.specs.Prelude.{◌≡◌, IfErr, IfOk, Ok};
ghost use Rattle.ph_calls.specs.Accounts.{create_account};
ghost use Rattle.ph_calls.specs.Check.{Refuses};
ghost use Rattle.ph_calls.specs.Parameters.{given};
ghost use Rattle.ph_calls.specs.Table.{params_of};

use crate::call::CreateAccount;
use crate::params::{account_type, metadata, text};
use crate::row::Name;
use ph_errors::Refusal;
use ph_form::Form;
use std::alloc::Global;

/// The account of a form.
#[tactic(auto, unfolding(crate::specs::Parameters::given))]
pub fn create_account(alloc: Global, form: &Form) -> Result<CreateAccount, Refusal>
    ensures call { IfOk result (λ call. given (params_of Name.CreateAccount) create_account form.now ≡ Ok call) }
    ensures refusal { IfErr result (Refuses (given (params_of Name.CreateAccount) create_account form.now)) }
{
    Ok(CreateAccount {
        sort: account_type(alloc, form, b"type")?,
        email: text(alloc, form, b"email", 255)?,
        metadata: metadata(alloc, form, b"metadata")?,
    })
}
