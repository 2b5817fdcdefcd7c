//! What a session writes that isn't a reply of its history.
ghost use Rattle.std.specs.Prelude.{◌≡◌, ◌++◌, IsTrue, None, OnErr, OnOk, is_some};
ghost use Rattle.ph_errors.specs.Body.{body_of};
ghost use Rattle.ph_errors.specs.Fixed.{closing_of, problem_of};
ghost use Rattle.ph_errors.specs.Table.{error_of};
ghost use Rattle.ph_io.specs.Writes.{Takes, TakesFront};
ghost use Rattle.ph_conn.specs.Sends.{Closes, Parts, PartsOut};
ghost use Rattle.ph_conn.specs.Texts.{last_words, line_for};

use crate::endings::{Closed, Stop, TalkError};
use ph_errors::Fixed;
use ph_io::{Sink, WriteFailed, write_all};

/// Writes the line `HTTP/1.1 100 Continue`, where a request waits for it.
#[tactic(auto, unfolding(crate::specs::Texts::continue_line))]
pub fn announce<K: Sink>(output: &mut K, continues: bool) -> Result<(), WriteFailed>
    ensures beside { K.beside_sink output.new ≡ K.beside_sink output.old }
    ensures all { OnOk result (Takes (K.sink output.old) (K.sink output.new) (line_for continues)) }
    ensures front { OnErr result (TakesFront (K.sink output.old) (K.sink output.new) (line_for continues)) }
{
    if continues {
        return write_all(output, b"HTTP/1.1 100 Continue\r\n\r\n");
    }
    Ok(())
}

/// Writes the closing reply of this status, behind so many replies.
pub fn close<K: Sink>(output: &mut K, status: u16, replies: u64) -> Result<Closed, TalkError>
    requires closing { IsTrue (is_some (closing_of status)) }
    ensures beside { K.beside_sink output.new ≡ K.beside_sink output.old }
    ensures closes { Closes status replies result (K.sink output.old) (K.sink output.new) }
{
    let Some(fixed) = Fixed::closing(status) else {
        unreachable!()
    };
    match say(output, fixed) {
        Ok(()) => Ok(Closed {
            replies,
            stop: Stop::Refused(status),
        }),
        Err(WriteFailed) => Err(TalkError::WriteFault),
    }
}

/// Writes a fixed error as the last reply of a session that breaks off, and answers why it does.
pub fn part<K: Sink>(output: &mut K, fixed: Fixed, why: TalkError) -> TalkError
    ensures beside { K.beside_sink output.new ≡ K.beside_sink output.old }
    ensures parts { Parts fixed why result (K.sink output.old) (K.sink output.new) }
{
    match say(output, fixed) {
        Ok(()) => why,
        Err(WriteFailed) => TalkError::WriteFault,
    }
}

/// Writes 503 `no_memory` as the reply to a run that was given up for want of memory, as far as that goes. The park
/// stands in the history, so the session breaks off for want of memory where the write fails too.
pub fn part_out<K: Sink>(output: &mut K) -> TalkError
    ensures beside { K.beside_sink output.new ≡ K.beside_sink output.old }
    ensures parts { PartsOut result (K.sink output.old) (K.sink output.new) }
{
    match say(output, Fixed::NoMemory) {
        Ok(()) => TalkError::NoMemory,
        Err(WriteFailed) => TalkError::NoMemory,
    }
}

// Writes a fixed error as the last reply of a session. It takes no memory.
fn say<K: Sink>(output: &mut K, fixed: Fixed) -> Result<(), WriteFailed>
    ensures beside { K.beside_sink output.new ≡ K.beside_sink output.old }
    ensures all { OnOk result (Takes (K.sink output.old) (K.sink output.new) (last_words fixed)) }
    ensures front { OnErr result (TakesFront (K.sink output.old) (K.sink output.new) (last_words fixed)) }
{
    match write_all(output, head(fixed)) {
        Ok(()) => write_all(output, fixed.body().as_bytes()),
        Err(WriteFailed) => Err(WriteFailed),
    }
}

// What stands before the body of a fixed error in the last reply of a session.
fn head(fixed: Fixed) -> &'static [u8]
    ensures { result.now ++ body_of (error_of (problem_of fixed)) None ≡ last_words fixed }
{
    match fixed {
        Fixed::AcquirerPending =>
            b"HTTP/1.1 500 Internal Server Error\r\nContent-Type: application/json\r\nContent-Length: 103\r\nStripe-Should-Retry: true\r\nConnection: close\r\n\r\n",
        Fixed::AcquirerFailed =>
            b"HTTP/1.1 500 Internal Server Error\r\nContent-Type: application/json\r\nContent-Length: 102\r\nStripe-Should-Retry: true\r\nConnection: close\r\n\r\n",
        Fixed::NoMemory =>
            b"HTTP/1.1 503 Service Unavailable\r\nContent-Type: application/json\r\nContent-Length: 76\r\nConnection: close\r\n\r\n",
        Fixed::HistoryFull =>
            b"HTTP/1.1 503 Service Unavailable\r\nContent-Type: application/json\r\nContent-Length: 85\r\nConnection: close\r\n\r\n",
        Fixed::Malformed =>
            b"HTTP/1.1 400 Bad Request\r\nContent-Type: application/json\r\nContent-Length: 73\r\nConnection: close\r\n\r\n",
        Fixed::BodyTooLarge =>
            b"HTTP/1.1 413 Content Too Large\r\nContent-Type: application/json\r\nContent-Length: 70\r\nConnection: close\r\n\r\n",
        Fixed::HeadTooLarge =>
            b"HTTP/1.1 431 Request Header Fields Too Large\r\nContent-Type: application/json\r\nContent-Length: 70\r\nConnection: close\r\n\r\n",
        Fixed::NotImplemented =>
            b"HTTP/1.1 501 Not Implemented\r\nContent-Type: application/json\r\nContent-Length: 71\r\nConnection: close\r\n\r\n",
        Fixed::VersionNotSupported =>
            b"HTTP/1.1 505 HTTP Version Not Supported\r\nContent-Type: application/json\r\nContent-Length: 82\r\nConnection: close\r\n\r\n",
    }
}
