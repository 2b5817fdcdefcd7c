//! The table of calls.
ghost use Rattle.std.specs.Prelude.{◌≡◌, map};
ghost use Rattle.ph_calls.specs.Parameters.{name_of};
ghost use Rattle.ph_calls.specs.Table.{line_of, params_of, table};

use crate::row::{Name, Path, TableRow};
use ph_base::Kind;

/// A row: a method, a path with an id between two texts or of one text, and the call.
macro_rules! row {
    ($method:literal $path:literal => $call:expr) => {
        TableRow {
            method: $method,
            path: Path::Plain($path),
            call: $call,
        }
    };
    ($method:literal $front:literal id $back:literal => $call:expr) => {
        TableRow {
            method: $method,
            path: Path::WithId($front, $back),
            call: $call,
        }
    };
}

static TABLE: [TableRow; 23] = [
    row!(b"POST" b"/v1/payment_intents" => Name::CreateIntent),
    row!(b"GET" b"/v1/payment_intents/" id b"" => Name::Retrieve(Kind::Intent)),
    row!(b"POST" b"/v1/payment_intents/" id b"" => Name::UpdateIntent),
    row!(b"POST" b"/v1/payment_intents/" id b"/confirm" => Name::ConfirmIntent),
    row!(b"POST" b"/v1/payment_intents/" id b"/capture" => Name::CaptureIntent),
    row!(b"POST" b"/v1/payment_intents/" id b"/cancel" => Name::CancelIntent),
    row!(b"GET" b"/v1/charges/" id b"" => Name::Retrieve(Kind::Charge)),
    row!(b"POST" b"/v1/refunds" => Name::CreateRefund),
    row!(b"GET" b"/v1/refunds/" id b"" => Name::Retrieve(Kind::Refund)),
    row!(b"GET" b"/v1/disputes/" id b"" => Name::Retrieve(Kind::Dispute)),
    row!(b"POST" b"/v1/disputes/" id b"" => Name::SendEvidence),
    row!(b"POST" b"/v1/disputes/" id b"/close" => Name::CloseDispute),
    row!(b"POST" b"/v1/accounts" => Name::CreateAccount),
    row!(b"GET" b"/v1/accounts/" id b"" => Name::Retrieve(Kind::Account)),
    row!(b"POST" b"/v1/transfers" => Name::CreateTransfer),
    row!(b"GET" b"/v1/transfers/" id b"" => Name::Retrieve(Kind::Transfer)),
    row!(b"POST" b"/v1/transfers/" id b"/reversals" => Name::ReverseTransfer),
    row!(b"GET" b"/v1/application_fees/" id b"" => Name::Retrieve(Kind::Fee)),
    row!(b"POST" b"/v1/application_fees/" id b"/refunds" => Name::RefundFee),
    row!(b"GET" b"/v1/balance" => Name::GetBalance),
    row!(b"GET" b"/v1/balance_transactions/" id b"" => Name::Retrieve(Kind::Txn)),
    row!(b"POST" b"/_host/clock" => Name::SetClock),
    row!(b"POST" b"/_host/payment_intents/" id b"/authenticate" => Name::Authenticate),
];

/// The rows of the table.
#[tactic(auto, unfolding(crate::specs::Table::table))]
pub fn rows() -> &'static [TableRow]
    ensures { map line_of result.now ≡ table }
{
    &TABLE
}

// The names of the create of an account, in the same order.
fn account_names() -> &'static [&'static [u8]]
    ensures { map (λ name. name.now) result.now ≡ map name_of (params_of Name.CreateAccount) }
{
    &[
        b"type",
        b"email",
        b"metadata",
        b"country",
        b"capabilities",
        b"business_type",
        b"business_profile",
        b"tos_acceptance",
        b"controller",
        b"settings",
    ]
}

/// The names of a call's parameters, and behind them those that it accepts with anything below them and without effect.
pub fn names_of(call: Name) -> &'static [&'static [u8]]
    ensures { map (λ name. name.now) result.now ≡ map name_of (params_of call) }
{
    match call {
        Name::CreateIntent => &[
            b"amount",
            b"currency",
            b"payment_method",
            b"confirm",
            b"capture_method",
            b"description",
            b"metadata",
            b"application_fee_amount",
            b"transfer_data[destination]",
            b"transfer_group",
            b"automatic_payment_methods",
            b"payment_method_types",
            b"return_url",
            b"receipt_email",
            b"statement_descriptor",
            b"statement_descriptor_suffix",
            b"off_session",
            b"use_stripe_sdk",
        ],
        Name::UpdateIntent => &[
            b"amount",
            b"currency",
            b"payment_method",
            b"description",
            b"metadata",
            b"application_fee_amount",
            b"transfer_group",
        ],
        Name::ConfirmIntent => &[
            b"payment_method",
            b"return_url",
            b"off_session",
            b"use_stripe_sdk",
        ],
        Name::CaptureIntent => &[b"amount_to_capture", b"application_fee_amount"],
        Name::CancelIntent => &[b"cancellation_reason"],
        Name::CreateRefund => &[
            b"charge",
            b"payment_intent",
            b"amount",
            b"reason",
            b"metadata",
            b"reverse_transfer",
            b"refund_application_fee",
        ],
        Name::SendEvidence => &[b"evidence[uncategorized_text]", b"submit"],
        Name::CreateAccount => account_names(),
        Name::CreateTransfer => &[
            b"amount",
            b"currency",
            b"destination",
            b"source_transaction",
            b"description",
            b"metadata",
            b"transfer_group",
        ],
        Name::ReverseTransfer | Name::RefundFee => &[b"amount", b"metadata"],
        Name::SetClock => &[b"now"],
        Name::Authenticate => &[b"outcome"],
        Name::CloseDispute | Name::Retrieve(_) | Name::GetBalance => &[],
    }
}
