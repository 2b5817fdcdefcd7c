//! What a customer's authentication comes to.

/// What a customer's authentication comes to, as payhost's own `outcome` names it.
#[derive(Clone, Copy, Debug, PartialEq, Eq)]
pub enum Authentication {
    Succeeded,
    Failed,
}
