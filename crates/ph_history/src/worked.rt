//! A history that is worked out.
ghost use Rattle.std.specs.Prelude.{◌≡◌};
ghost use Rattle.ph_history.specs.Text.{history_text};
ghost use Rattle.ph_history.specs.Worked.{created, created_text};

/// The text of the history of one create.
pub fn a_create()
    ensures { history_text created ≡ created_text }
{}
