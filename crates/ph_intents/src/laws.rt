//! Laws of the operations.
ghost use Rattle.ph_intents.specs.Authenticate.{authenticate_outcome, fail_authentication_outcome};
ghost use Rattle.ph_intents.specs.Cancel.{cancel_outcome};
ghost use Rattle.ph_intents.specs.Capture.{capture_outcome};
ghost use Rattle.ph_intents.specs.Confirm.{confirm_outcome};
ghost use Rattle.ph_intents.specs.Create.{create_confirmed_outcome, create_outcome};
ghost use Rattle.ph_intents.specs.Keeps.{KeepsSound, SettleKeepsSound, confirm_texts, create_texts, no_texts, update_texts};
ghost use Rattle.ph_intents.specs.Laws.{BegunIsAsked};
ghost use Rattle.ph_intents.specs.Update.{update_outcome};

/// Each call that begins an attempt, where it is accepted, waits for an order, whose reference is the place of the
/// batch's last row.
pub fn begun_is_asked()
    ensures confirm { BegunIsAsked confirm_outcome }
    ensures create { BegunIsAsked create_confirmed_outcome }
    ensures authenticate { BegunIsAsked authenticate_outcome }
{}

/// The law of each call: it is refused as calls are, or its batch may be entered after sound rows, which stay sound,
/// is no larger than this, and shows what is done to payment intents and attempts, which may be done there.
pub fn calls_keep_sound()
    ensures create { KeepsSound create_texts 2 create_outcome }
    ensures create_confirmed { KeepsSound create_texts 3 create_confirmed_outcome }
    ensures update { KeepsSound update_texts 1 update_outcome }
    ensures confirm { KeepsSound confirm_texts 2 confirm_outcome }
    ensures authenticate { KeepsSound no_texts 2 authenticate_outcome }
    ensures fail_authentication { KeepsSound no_texts 2 fail_authentication_outcome }
    ensures capture { KeepsSound no_texts 13 capture_outcome }
    ensures cancel { KeepsSound no_texts 2 cancel_outcome }
{}

/// The law of a ruling: it settles a live attempt whose payment intent is processing, its batch may be entered after
/// sound rows, which stay sound, and shows that.
pub fn settle_keeps_sound()
    ensures { SettleKeepsSound }
{}
