//! What is done with the bytes of a head.
ghost use Rattle.std.specs.Prelude.{◌≡◌};
ghost use Rattle.httparse.specs.Spans.{IsRequestWithin};
ghost use Rattle.ph_http.specs.Judged.{IsWithinHead, told_at};
ghost use Rattle.ph_http.specs.Verdict.{judgement_of};

use crate::lines::{other_version, too_many_lines};
use crate::verdict::{Verdict, judge};
use httparse::spans::{HeaderSpan, RequestSpans};
use ph_head::read_head;

/// What is done with the bytes of a head.
#[derive(Clone, Copy, Debug)]
pub enum Judged {
    /// The session closes with this status.
    Closes(u16),
    /// A head whose parts stand there, and the length of its body.
    Accepts(RequestSpans, usize),
}

/// What is done with the bytes of a head, and where its parts stand if it is taken.
#[tactic(auto, unfolding(crate::specs::Verdict::judgement_of))]
pub fn judge_head(head: &[u8], room: &mut [HeaderSpan; 64]) -> Judged
    ensures within { IsWithinHead head.now room.new result }
    ensures judged { told_at head.now room.new result ≡ judgement_of head.now }
{
    if too_many_lines(head) {
        return Judged::Closes(431);
    }
    if other_version(head) {
        return Judged::Closes(505);
    }
    let Some(spans) = read_head(head, room) else {
        return Judged::Closes(400);
    };
    match judge(head, spans.method.of(head), &room[..spans.headers]) {
        Verdict::Refuses(status) => Judged::Closes(status),
        Verdict::Takes(n) => Judged::Accepts(spans, n),
    }
}
