//! The table of statuses.
ghost use Rattle.std.specs.Prelude.{◌≡◌, ◌<◌};
ghost use Rattle.ph_intents.specs.Statuses.{column_number, line_number, next_status};

use ph_items::IntentStatus;

/// What a call or the customer does to a payment intent: a column of the table of statuses.
#[derive(Clone, Copy, Debug, PartialEq, Eq)]
pub enum Step {
    /// An update of the description and the metadata alone, or of nothing.
    Describe,
    /// An update of something else, but of no payment method.
    Change,
    /// An update of the payment method.
    Choose,
    /// A confirm with a payment method: its own, or the payment intent's.
    Confirm,
    Capture,
    Cancel,
    /// The customer authenticates.
    Authenticate,
    /// The customer fails to authenticate.
    Fail,
}

const NO: Option<IntentStatus> = None;

const WAITS: Option<IntentStatus> = Some(IntentStatus::RequiresPaymentMethod);

const READY: Option<IntentStatus> = Some(IntentStatus::RequiresConfirmation);

const ASKS: Option<IntentStatus> = Some(IntentStatus::RequiresAction);

const RUNS: Option<IntentStatus> = Some(IntentStatus::Processing);

const HOLDS: Option<IntentStatus> = Some(IntentStatus::RequiresCapture);

const PAID: Option<IntentStatus> = Some(IntentStatus::Succeeded);

const OVER: Option<IntentStatus> = Some(IntentStatus::Canceled);

// A line for each status, a column for each step.
const TABLE: [[Option<IntentStatus>; 8]; 7] = [
    [WAITS, WAITS, READY, RUNS, NO, OVER, NO, NO],
    [READY, READY, READY, RUNS, NO, OVER, NO, NO],
    [ASKS, NO, NO, NO, NO, OVER, RUNS, WAITS],
    [RUNS, NO, NO, NO, NO, NO, NO, NO],
    [HOLDS, NO, NO, NO, PAID, OVER, NO, NO],
    [PAID, NO, NO, NO, NO, NO, NO, NO],
    [OVER, NO, NO, NO, NO, NO, NO, NO],
];

// The line of a status.
fn line_number(status: IntentStatus) -> usize
    ensures line { result ≡ line_number status }
    ensures bound { result < 7 }
{
    status as usize
}

// The column of a step.
fn column_number(step: Step) -> usize
    ensures column { result ≡ column_number step }
    ensures bound { result < 8 }
{
    step as usize
}

/// The status to which a step leads. None exactly where it isn't allowed.
#[tactic(auto, unfolding(crate::specs::Statuses::next_status))]
pub fn next_status(status: IntentStatus, step: Step) -> Option<IntentStatus>
    ensures { result ≡ next_status status step }
{
    TABLE[line_number(status)][column_number(step)]
}
