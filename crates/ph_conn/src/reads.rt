//! Items of a session, read from a source.
ghost use Rattle.std.specs.Prelude.{◌≡◌, false, true};
ghost use Rattle.ph_http.specs.declared.message.Raw.{Raw};
ghost use Rattle.ph_http.specs.Items.{Has, Request, Wants, first};
ghost use Rattle.ph_http.specs.TalkState.{TalkState};
ghost use Rattle.ph_conn.specs.Reads.{EndIs, Fetches, RequestIs};

use ph_base::NoMemory;
use ph_http::{Next, Raw, Talk};
use ph_io::Source;

/// What a session is to do next, or why it can do nothing more.
#[derive(Drop)]
pub enum Fetched {
    /// A request is there; the flag says that the line `HTTP/1.1 100 Continue` goes before its reply.
    Request(Raw, bool),
    /// The session closes with a reply of this status.
    Close(u16),
    /// The bytes end behind a request.
    End,
    /// The bytes end within a request.
    Cut,
    /// A read failed.
    ReadFault,
    /// There was no memory.
    NoMemory,
}

/// Reads until an item is there, in pieces of at most 4,096 bytes.
pub fn fetch<S: Source>(talk: &mut Talk, input: &mut S) -> Fetched
    requires open { talk.old.ended ≡ false }
    ensures fetches { Fetches talk.old talk.new result (S.source input.old) (S.source input.new) }
    ensures beside { S.beside_source input.new ≡ S.beside_source input.old }
{
    let mut room = [0; 4096];
    loop {
        match talk.next() {
            Err(NoMemory) => return Fetched::NoMemory,
            Ok(Next::Request(raw)) => return Fetched::Request(raw, false),
            Ok(Next::Continue) => return request(talk),
            Ok(Next::Close(status)) => return Fetched::Close(status),
            Ok(Next::End) => unreachable!(),
            Ok(Next::Cut) => unreachable!(),
            Ok(Next::More) => match input.read(&mut room) {
                Err(_) => return Fetched::ReadFault,
                Ok(0) => {
                    talk.finish();
                    return end(talk);
                }
                Ok(n) => match talk.feed(&room[..n]) {
                    Err(NoMemory) => return Fetched::NoMemory,
                    Ok(()) => {}
                },
            },
        }
    }
}

// The request that follows its Continue.
fn request(talk: &mut Talk) -> Fetched
    requires there { (raw : Raw) × (after : TalkState) × (first talk.old ≡ Has (Request raw) after) }
    ensures { RequestIs talk.old talk.new result }
{
    match talk.next() {
        Err(NoMemory) => Fetched::NoMemory,
        Ok(Next::Request(raw)) => Fetched::Request(raw, true),
        Ok(Next::Continue) => unreachable!(),
        Ok(Next::Close(_)) => unreachable!(),
        Ok(Next::More) => unreachable!(),
        Ok(Next::End) => unreachable!(),
        Ok(Next::Cut) => unreachable!(),
    }
}

// What the end of the bytes means where more were wanted.
fn end(talk: &mut Talk) -> Fetched
    requires ended { talk.old.ended ≡ true }
    requires wanted { first (record talk.old { ended = false }) ≡ Wants }
    ensures { EndIs talk.old result }
{
    match talk.next() {
        Err(NoMemory) => Fetched::NoMemory,
        Ok(Next::End) => Fetched::End,
        Ok(Next::Cut) => Fetched::Cut,
        Ok(Next::More) => unreachable!(),
        Ok(Next::Close(_)) => unreachable!(),
        Ok(Next::Continue) => unreachable!(),
        Ok(Next::Request(_)) => unreachable!(),
    }
}
