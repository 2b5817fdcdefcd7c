//! The items that a talk gives are those of the bytes fed, whatever the pieces.
ghost use Rattle.std.specs.Prelude.{◌≡◌, ◌↔◌, ◌+◌, ◌++◌, ◌<◌, ◌⊎◌, [], ℕ, Bool, List, false, length, true};
ghost use Rattle.std.specs.List.{list_all};
ghost use Rattle.ph_http.specs.Calls.{IsFront, Run, Step, fed, given};
ghost use Rattle.ph_http.specs.Items.{Close, Continue, Cut, End, Has, Item, Request, Wants, first, items_from, items_of};
ghost use Rattle.ph_http.specs.Replies.{is_status};
ghost use Rattle.ph_http.specs.Talk.{Leads, goes_on};
ghost use Rattle.ph_http.specs.declared.message.Raw.{Raw};
ghost use Rattle.ph_http.specs.TalkState.{TalkState, talk_of};

/// Over any calls, the items given are a front of the items of the bytes fed, each given once.
pub fn items_are_given()
    ensures front { (steps : List Step) (new : TalkState) → Run (talk_of [] false) steps new
        → IsFront (given steps) (items_of (fed steps) new.ended) }
    ensures rest { (steps : List Step) (new : TalkState) → Run (talk_of [] false) steps new
        → list_all goes_on (given steps) ≡ true
        → items_of (fed steps) new.ended ≡ given steps ++ items_from new }
{}

/// Items that a talk gave come first, and then those of what is still unread.
pub fn items_go_on()
    ensures { (old new : TalkState) (items : List Item) → Leads old items new
        → items_from old ≡ items ++ items_from new }
{}

/// As long as more bytes may follow, the items are a front of those with more bytes.
pub fn items_of_a_front()
    ensures { (bytes more : List ℕ) (ended : Bool) → IsFront (items_of bytes false) (items_of (bytes ++ more) ended) }
{}

/// More bytes are wanted exactly where no further item follows.
pub fn more_is_no_item()
    ensures { (talk : TalkState) → (first talk ≡ Wants) ↔ (items_from talk ≡ []) }
{}

/// More bytes are wanted only before the end is told.
pub fn more_only_before_the_end()
    ensures { (talk : TalkState) → first talk ≡ Wants → talk.ended ≡ false }
{}

/// Before the end is told, neither End nor Cut comes.
pub fn no_end_before_it_is_told()
    ensures { (talk after : TalkState) → talk.ended ≡ false
        → (first talk ≡ Has End after → ⊥) × (first talk ≡ Has Cut after → ⊥) }
{}

/// Where more bytes were wanted and the end is told, the end comes, clean or not.
pub fn the_end_comes()
    ensures { (talk : TalkState) → first talk ≡ Wants → let closed = record talk { ended = true }
        in (first closed ≡ Has End closed) ⊎ (first closed ≡ Has Cut closed) }
{}

/// Where more bytes are wanted, fewer are unread than a head and a body may have.
pub fn few_bytes_wait()
    ensures { (talk : TalkState) → first talk ≡ Wants → length talk.unread < 16384 + 65536 }
{}

/// A session closes only with statuses that a reply can have.
pub fn closing_statuses_have_reasons()
    ensures { (talk after : TalkState) (status : ℕ) → first talk ≡ Has (Close status) after → is_status status ≡ true }
{}

/// Behind a 100 line comes its request, whether more bytes follow or not.
pub fn a_request_follows_its_continue()
    ensures { (talk after : TalkState) → first talk ≡ Has Continue after
        → (raw : Raw) × (last : TalkState) × (first after ≡ Has (Request raw) last) }
{}
