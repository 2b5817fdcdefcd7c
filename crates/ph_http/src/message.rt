//! Requests as they were read, replies, and what a talk gives.
use ph_base::Bytes;

/// A request as it was read.
#[derive(Drop, Debug)]
pub struct Raw {
    /// `GET`, `POST` or `DELETE`; the case counts.
    pub method: Bytes,
    /// The target up to its first `?`.
    pub path: Bytes,
    /// What follows that `?`.
    pub query: Option<Bytes>,
    /// The credentials of the first `Authorization` header: the text after `Bearer `, or the user of `Basic `.
    pub auth: Option<Bytes>,
    /// The value of the first `Idempotency-Key` header.
    pub key: Option<Bytes>,
    /// The value of the first `Stripe-Account` header.
    pub account: Option<Bytes>,
    /// As many bytes as `Content-Length` says, 65,536 at most.
    pub body: Bytes,
    /// The session ends after the reply.
    pub close: bool,
}

/// A reply: its body is a JSON text.
#[derive(Drop, Debug)]
pub struct Reply {
    /// One of the twelve that payhost writes a reason for.
    pub status: u16,
    pub body: Bytes,
    /// The reply was saved by an earlier request with the same key.
    pub replayed: bool,
    /// The client should send the request again.
    pub retry: bool,
}

/// What a talk gives next.
#[derive(Drop, Debug)]
pub enum Next {
    Request(Raw),
    /// The line `HTTP/1.1 100 Continue` is to be written, with an empty line.
    Continue,
    /// The session closes with a reply of this status.
    Close(u16),
    /// More bytes are wanted.
    More,
    /// The bytes end behind a request.
    End,
    /// The bytes end within a request.
    Cut,
}
