//! A talk: bytes in pieces, and items out.
ghost use Rattle.std.specs.Prelude.{◌≡◌, ◌++◌, ◌≤◌, IfOk, OnErr, OnOk, [], drop, false, length, true, vec_len};
ghost use Rattle.ph_http.specs.Items.{Cut, at_end};
ghost use Rattle.ph_http.specs.Talk.{Gives, next_of};
ghost use Rattle.ph_http.specs.Found.{IsFound};
ghost use Rattle.ph_http.specs.TalkState.{talk_of};

use crate::cut::{head_end, leading_len};
use crate::judged::{Judged, judge_head};
use crate::message::Next;
use crate::request::{is_continue_due, whole_request};
use httparse::spans::EMPTY_HEADER_SPAN;
use ph_base::NoMemory;
use std::alloc::Global;
use std::marker::Model;

/// The greatest length of a head, with the CR and LF bytes before it.
const HEAD_LIMIT: usize = 16_384;

/// The bytes of a session that are still unread.
#[derive(Drop)]
pub struct Talk {
    alloc: Global,
    unread: Vec<u8>,
    ended: bool,
    continued: bool,
}

impl Model for Talk {
    ghost use Rattle.ph_http.specs.TalkState.{TalkState};

    ghost Value = { TalkState };

    ghost view = { λ t. record { unread = t.unread.items; ended = t.ended; continued = t.continued } };
}

impl Talk {
    /// A talk of no bytes yet. It takes no memory.
    pub fn new(alloc: Global) -> Self
        ensures { result ≡ talk_of [] false }
    {
        Talk {
            alloc,
            unread: Vec::new(alloc),
            ended: false,
            continued: false,
        }
    }

    /// Takes the next piece of the bytes. For want of memory nothing changes.
    pub fn feed(&mut self, piece: &[u8]) -> Result<(), NoMemory>
        requires before_the_end { self.old.ended ≡ false }
        ensures ok { OnOk result (self.new ≡ record self.old { unread = self.old.unread ++ piece.now }) }
        ensures err { OnErr result (self.new ≡ self.old) }
    {
        self.unread.extend_from_slice(piece)?;
        Ok(())
    }

    /// Says that no more bytes come.
    pub fn finish(&mut self)
        ensures { self.new ≡ record self.old { ended = true } }
    {
        self.ended = true;
    }

    /// The next item of the bytes, or the want of more. A request's bytes are taken away with it; any
    /// other answer leaves them. A 100 line comes once, directly before its request. For want of memory nothing changes.
    pub fn next(&mut self) -> Result<Next, NoMemory>
        ensures ok { IfOk result (λ next. Gives self.old next self.new) }
        ensures end { self.new.ended ≡ self.old.ended }
        ensures err { OnErr result (self.new ≡ self.old) }
    {
        let found = first_item(self.alloc, &self.unread, self.ended, self.continued)?;
        let Found {
            next,
            taken,
            continued,
        } = found;
        drop_front(&mut self.unread, taken);
        self.continued = continued;
        Ok(next)
    }
}

// An item, how many bytes it takes away, and whether the 100 line of the request at the front was given then.
#[derive(Drop)]
struct Found {
    next: Next,
    taken: usize,
    continued: bool,
}

impl Found {
    // An item that leaves the talk as it is.
    fn kept(next: Next, continued: bool) -> Self
        ensures { result ≡ record { next = next; taken = 0; continued = continued } }
    {
        Found {
            next,
            taken: 0,
            continued,
        }
    }
}

// The first item of the bytes.
fn first_item(alloc: Global, bytes: &[u8], ended: bool, continued: bool) -> Result<Found, NoMemory>
    ensures gives { IfOk result (λ found. IsFound bytes.now ended continued found) }
    ensures within { IfOk result (λ found. found.taken ≤ length bytes.now) }
{
    let window = bytes.len().min(HEAD_LIMIT);
    let Some(end) = head_end(&bytes[..window]) else {
        return Ok(Found::kept(without_head(bytes, ended), continued));
    };
    let head = &bytes[..end];
    let rest = &bytes[end..];
    let mut room = [EMPTY_HEADER_SPAN; 64];
    match judge_head(head, &mut room) {
        Judged::Closes(status) => Ok(Found::kept(Next::Close(status), continued)),
        Judged::Accepts(spans, n) => {
            if rest.len() < n {
                return Ok(Found::kept(part_of_body(ended), continued));
            }
            let headers = &room[..spans.headers];
            if is_continue_due(head, spans.version, headers, n, continued) {
                return Ok(Found::kept(Next::Continue, true));
            }
            let raw = whole_request(
                alloc,
                head,
                spans.method.of(head),
                spans.path.of(head),
                spans.version,
                headers,
                &rest[..n],
            )?;
            Ok(Found {
                next: Next::Request(raw),
                taken: end + n,
                continued: false,
            })
        }
    }
}

// What comes where the body isn't whole.
fn part_of_body(ended: bool) -> Next
    ensures { result ≡ next_of (at_end (talk_of [] ended) Cut) }
{
    if ended { Next::Cut } else { Next::More }
}

// What comes where the first bytes, as many as a head may have, hold no whole head.
fn without_head(bytes: &[u8], ended: bool) -> Next
    ensures { result ≡ next_of (Rattle.ph_http.specs.Items.without_head (talk_of bytes.now ended)) }
{
    if bytes.len() >= HEAD_LIMIT {
        Next::Close(431)
    } else if !ended {
        Next::More
    } else if leading_len(bytes) == bytes.len() {
        Next::End
    } else {
        Next::Cut
    }
}

// Takes n items from the front.
fn drop_front(items: &mut Vec<u8>, n: usize)
    requires { n ≤ vec_len items.old }
    ensures { items.new.items ≡ drop n items.old.items }
{
    let rest = items.len() - n;
    items.copy_within(n.., 0);
    items.truncate(rest);
}
