//! What is written of a history is read as that history, and as nothing else.
ghost use Rattle.std.specs.Prelude.{◌≡◌, ℕ, List, ◌++◌};
ghost use Rattle.ph_history.specs.Grammar.{IsBadAt, IsCut, IsText, IsWritten};
ghost use Rattle.ph_history.specs.Text.{History, history_text};

/// What is written of a history, where no line is longer than 300,000 bytes, is that history's text.
pub fn written_is_text()
    ensures { (bytes : List ℕ) (history : History) → IsWritten bytes history → IsText bytes history }
{}

/// A history's text is what is written of it.
pub fn text_is_written()
    ensures { (bytes : List ℕ) (history : History) → IsText bytes history → bytes ≡ history_text history }
{}

/// A history's text is that of one history alone.
pub fn text_is_of_one()
    ensures { (bytes : List ℕ) (history other : History) → IsText bytes history → IsText bytes other → history ≡ other }
{}

/// A history's text leaves the form at no line.
pub fn text_is_not_bad()
    ensures { (bytes : List ℕ) (history : History) (at : ℕ) → IsText bytes history → IsBadAt bytes at → ⊥ }
{}

/// A history's text isn't cut.
pub fn text_is_not_cut()
    ensures { (bytes : List ℕ) (history : History) → IsText bytes history → IsCut bytes → ⊥ }
{}

/// Bytes leave the form at one line alone.
pub fn bad_line_is_one()
    ensures { (bytes : List ℕ) (at other : ℕ) → IsBadAt bytes at → IsBadAt bytes other → at ≡ other }
{}

/// Bytes that leave the form leave it at that line, whatever follows them.
pub fn bad_line_stays()
    ensures { (bytes more : List ℕ) (at : ℕ) → IsBadAt bytes at → IsBadAt (bytes ++ more) at }
{}

/// Bytes that are cut leave the form at no line.
pub fn cut_is_not_bad()
    ensures { (bytes : List ℕ) (at : ℕ) → IsCut bytes → IsBadAt bytes at → ⊥ }
{}
