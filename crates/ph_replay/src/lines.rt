//! The lines of replies.
ghost use Rattle.std.specs.Prelude.{OnOk, OnErr};
ghost use Rattle.ph_io.specs.Writes.{Takes, TakesFront};
ghost use Rattle.ph_lines.specs.Fields.{line_text};
ghost use Rattle.ph_replay.specs.Lines.{replies_text, reply_fields};

use crate::told::Told;
use ph_io::{Sink, WriteFailed};
use ph_lines::{Field, write_line};

// The line of a reply.
fn write_reply<K: Sink>(sink: &mut K, told: &Told) -> Result<(), WriteFailed>
    ensures all { OnOk result (Takes (K.sink sink.old) (K.sink sink.new) (line_text (reply_fields told.now))) }
    ensures front { OnErr result (TakesFront (K.sink sink.old) (K.sink sink.new) (line_text (reply_fields told.now))) }
{
    let mut digits = [0u8; 64];
    let written = hex::encode_to_slice(&told.digest, &mut digits);
    prove!(written.is_ok());
    let fields = [
        Field::Number(told.place),
        Field::Number(u64::from(told.status)),
        Field::Word(&digits),
    ];
    write_line(sink, b"reply", &fields)
}

/// Writes a line for each reply: `reply`, its place, its status, and the SHA-256 of its body in lower-case hexadecimal.
/// It takes no memory. Where a write fails, a front of the lines was written.
pub fn write_replies<K: Sink>(replies: &[Told], sink: &mut K) -> Result<(), WriteFailed>
    ensures all { OnOk result (Takes (K.sink sink.old) (K.sink sink.new) (replies_text replies.now)) }
    ensures front { OnErr result (TakesFront (K.sink sink.old) (K.sink sink.new) (replies_text replies.now)) }
{
    for told in replies {
        write_reply(sink, told)?;
    }
    Ok(())
}
