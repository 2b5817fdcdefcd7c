//! What is told of a reply.
ghost use Rattle.std.specs.Prelude.{◌≡◌, ◌∷◌, []};
ghost use Rattle.ph_book.specs.Replies.{Replies};
ghost use Rattle.ph_replay.specs.Told.{told_at};

use ph_http::Reply;
use sha2::{Digest, Sha256};

/// What is told of a reply.
#[derive(Clone, Copy, Debug, PartialEq, Eq)]
pub struct Told {
    /// The place of the entry that it answers: the first entry has the place 1.
    pub place: u64,
    /// Its status.
    pub status: u16,
    /// The SHA-256 of its body.
    pub digest: [u8; 32],
}

/// What is told of the reply to the entry of a place.
pub(crate) fn tell(place: u64, reply: &Reply) -> Told
    ensures { result ∷ [] ≡ told_at place (Replies reply.now) }
{
    Told {
        place,
        status: reply.status,
        digest: Sha256::digest(reply.body.as_slice()),
    }
}
