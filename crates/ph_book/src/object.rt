//! The book as an object that a lock holds, which is its own plain one.
ghost use Rattle.std.specs.Prelude.{◌≡◌, ◌^◌, ◌<◌, IsTrue, refl};
ghost use Rattle.ph_lock.specs.Histories.{AllBelow};
ghost use Rattle.ph_book.specs.declared.hosted.Kept.TheVariants as kept;
ghost use Rattle.ph_book.specs.Callers.{caller_of, top_of};
ghost use Rattle.ph_book.specs.Entries as book;
ghost use Rattle.ph_book.specs.Entries.{IsGranted};
ghost use Rattle.ph_book.specs.Hosts.{Allows, Answers, IsLawful, itself, no_setup, same_setup};
ghost use Rattle.ph_book.specs.Legal.{is_full};
ghost use Rattle.ph_book.specs.Plain.{allows_it, enters, fills_it, is_allowed, is_filled, is_legal, sees_it};
ghost use Rattle.ph_book.specs.Queries.{Sees};
ghost use Rattle.ph_book.specs.Stays.{stays_allowed};

use crate::acts::{Act, Answer, Deed, Entry, Query};
use crate::book::Book;
use crate::hosted::{Hosted, Kept};
use crate::setup::Setup;
use ph_lock::{Object, Refused};

// The least number above each caller, which is 0 where there is no entry.
fn top(entries: &[Entry]) -> u64
    requires { AllBelow caller_of (2 ^ 62) entries.now }
    ensures { result ≡ top_of entries.now }
{
    let mut top: u64 = 0;
    for entry in entries {
        top = top.max(entry.caller + 1);
    }
    top
}

impl Object for Book {
    type Act = Act;

    type Answer = Answer;

    type Query = Query;

    type Seen = bool;

    type Entry = Entry;

    type Deed = Deed;

    type Base = Setup;

    ghost base = { λ b. b.setup };

    ghost blank = { no_setup };

    ghost history = { λ b. b.history };

    ghost top = { λ b. top_of b.history };

    ghost by = { caller_of };

    ghost deed = { λ entry. entry.deed };

    ghost deed_of = { book.deed_of };

    ghost answers = { Answers };

    ghost allows = { Allows };

    ghost lawful = { IsLawful };

    ghost full = { λ setup history act. IsTrue (is_full setup history (book.deed_of act)) };

    ghost granted = { IsGranted };

    ghost sees = { Sees };

    fn apply(&mut self, caller: u64, act: Act) -> Result<Answer, (Act, Refused)> {
        Book::apply(self, caller, act)
    }

    fn look(&self, query: &Query) -> bool {
        Book::look(self, query)
    }

    fn callers(&self) -> u64 {
        top(self.history())
    }

    ghost stays = { λ b h more c a none allowed. stays_allowed b h more c a none allowed };
}

impl Hosted for Book {
    ghost setup = { same_setup };

    ghost plain = { itself };

    ghost mark = { λ _. kept.Yes };

    fn part(answer: Answer) -> (Answer, Kept) {
        (answer, Kept::Yes)
    }

    ghost naming = { λ _. refl };

    ghost entering = { enters };

    ghost legality = { is_legal };

    ghost few = { λ _ _ lawful. lawful.few };

    ghost allowing = { is_allowed };

    ghost allowed = { allows_it };

    ghost filling = { fills_it };

    ghost filled = { is_filled };

    ghost parking = { λ _ _. tt };

    ghost seeing = { sees_it };
}
