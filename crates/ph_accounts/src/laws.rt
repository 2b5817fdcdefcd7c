//! The law of the create.
ghost use Rattle.ph_facts.specs.Keeps.{KeepsSound};
ghost use Rattle.ph_accounts.specs.Create.{create_outcome};
ghost use Rattle.ph_accounts.specs.Laws.{create_texts};

/// The create of an account is refused as calls are, or its one row may be entered after sound rows, which stay sound.
pub fn create_keeps_sound()
    ensures { KeepsSound create_texts 1 create_outcome }
{}
