//! Laws of the rows that show what was done, each the contract of a function that does nothing.
ghost use Rattle.ph_doings.specs.Rows.{LiveRunsMayEnd, PastIsInRows, RowsLetCome, RowsSayPast};

/// Rows that show the past say it: the present version of a payment intent its status, that of an attempt where it
/// stands, and where there is none nothing was done.
pub fn rows_say_past()
    ensures { RowsSayPast }
{}

/// Rows in their order that show the past have a present version of each payment intent and attempt: a ruling on a live
/// run finds both.
pub fn past_is_in_rows()
    ensures { PastIsInRows }
{}

/// What a call may do after rows that show the past may come after the past.
pub fn rows_let_come()
    ensures { RowsLetCome }
{}

/// After rows that show the past each live run may be ended: the rows have its attempt, live under its order, and its
/// payment intent, which is processing.
pub fn live_runs_may_end()
    ensures { LiveRunsMayEnd }
{}
