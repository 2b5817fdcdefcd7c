//! Laws of disputes.
ghost use Rattle.ph_facts.specs.Keeps.{KeepsSound, no_texts};
ghost use Rattle.ph_disputes.specs.Answers.{evidence_outcome};
ghost use Rattle.ph_disputes.specs.Closing.{close_outcome};
ghost use Rattle.ph_disputes.specs.Due.{open_due_of};
ghost use Rattle.ph_disputes.specs.Laws.{OpeningKeepsSound, evidence_texts};
ghost use Rattle.ph_disputes.specs.Opening.{open_of};

/// The law of evidence and of a close: its batch may be entered after sound rows, which stay sound, is no larger than
/// this, and does nothing to payment intents and attempts; with it each dispute has moved what
/// its status says, its amount and its fee taken once, and its amount given back once where it is won.
pub fn answers_keep_sound()
    ensures evidence { KeepsSound evidence_texts 3 evidence_outcome }
    ensures close { KeepsSound no_texts 2 close_outcome }
{}

/// A batch that may be added after sound rows may be added with what an opening adds to it, too, which is at most four
/// rows and events, and does nothing more to payment intents and attempts: the dispute has taken its amount and its fee, and the charge keeps its amounts.
pub fn openings_keep_sound()
    ensures open { OpeningKeepsSound open_of }
    ensures open_due { OpeningKeepsSound open_due_of }
{}
