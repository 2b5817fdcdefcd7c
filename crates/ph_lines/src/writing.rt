//! Writing a line, field by field.
ghost use Rattle.std.specs.Prelude.{◌≡◌, ◌∷◌, ◌≤◌, length, map, OnOk, OnErr};
ghost use Rattle.hex.specs.Hex.{encode_lower};
ghost use Rattle.ph_io.specs.Writes.{Takes, TakesFront};
ghost use Rattle.ph_lines.specs.Fields.{field_text, line_text, spaced};

use crate::fields::Field;
use itoa::Buffer;
use ph_io::{Sink, WriteFailed, write_all};

// How many bytes are spelled at a time.
const PIECE: usize = 256;

// The digits of some bytes, at most `PIECE` of them.
fn write_piece<K: Sink>(sink: &mut K, bytes: &[u8]) -> Result<(), WriteFailed>
    requires { length bytes.now ≤ 256 }
    ensures all { OnOk result (Takes (K.sink sink.old) (K.sink sink.new) (encode_lower bytes.now)) }
    ensures front { OnErr result (TakesFront (K.sink sink.old) (K.sink sink.new) (encode_lower bytes.now)) }
{
    let mut room = [0; 2 * PIECE];
    let digits = &mut room[..2 * bytes.len()];
    let written = hex::encode_to_slice(bytes, digits);
    prove!(written.is_ok());
    write_all(sink, digits)
}

// The digits of some bytes.
fn write_hex<K: Sink>(sink: &mut K, bytes: &[u8]) -> Result<(), WriteFailed>
    ensures all { OnOk result (Takes (K.sink sink.old) (K.sink sink.new) (encode_lower bytes.now)) }
    ensures front { OnErr result (TakesFront (K.sink sink.old) (K.sink sink.new) (encode_lower bytes.now)) }
{
    let mut at = 0;
    while at < bytes.len() {
        let n = PIECE.min(bytes.len() - at);
        write_piece(sink, &bytes[at..at + n])?;
        at += n;
    }
    Ok(())
}

// Bytes that are there.
fn write_octets<K: Sink>(sink: &mut K, bytes: &[u8]) -> Result<(), WriteFailed>
    ensures all { OnOk result (Takes (K.sink sink.old) (K.sink sink.new) (61 ∷ encode_lower bytes.now)) }
    ensures front { OnErr result (TakesFront (K.sink sink.old) (K.sink sink.new) (61 ∷ encode_lower bytes.now)) }
{
    write_all(sink, b"=")?;
    write_hex(sink, bytes)
}

fn write_field<K: Sink>(sink: &mut K, field: &Field<'_>) -> Result<(), WriteFailed>
    ensures all { OnOk result (Takes (K.sink sink.old) (K.sink sink.new) (field_text field.now)) }
    ensures front { OnErr result (TakesFront (K.sink sink.old) (K.sink sink.new) (field_text field.now)) }
{
    match field {
        Field::Word(word) => write_all(sink, word),
        Field::Number(number) => write_all(sink, Buffer::new().format(*number).as_bytes()),
        Field::Octets(None) => write_all(sink, b"-"),
        Field::Octets(Some(bytes)) => write_octets(sink, bytes),
        Field::Flag(true) => write_all(sink, b"1"),
        Field::Flag(false) => write_all(sink, b"0"),
    }
}

fn write_spaced<K: Sink>(sink: &mut K, field: &Field<'_>) -> Result<(), WriteFailed>
    ensures all { OnOk result (Takes (K.sink sink.old) (K.sink sink.new) (32 ∷ field_text field.now)) }
    ensures front { OnErr result (TakesFront (K.sink sink.old) (K.sink sink.new) (32 ∷ field_text field.now)) }
{
    write_all(sink, b" ")?;
    write_field(sink, field)
}

fn write_fields<K: Sink>(sink: &mut K, fields: &[Field<'_>]) -> Result<(), WriteFailed>
    ensures all { OnOk result (Takes (K.sink sink.old) (K.sink sink.new) (spaced fields.now)) }
    ensures front { OnErr result (TakesFront (K.sink sink.old) (K.sink sink.new) (spaced fields.now)) }
{
    for field in fields {
        write_spaced(sink, field)?;
    }
    Ok(())
}

/// Writes a line of a first word and these fields behind it, with its LF. It takes no memory. Where a write fails, a
/// front of the line was written.
pub fn write_line<K: Sink>(
    sink: &mut K,
    word: &[u8],
    fields: &[Field<'_>],
) -> Result<(), WriteFailed>
    ensures all { OnOk result (Takes (K.sink sink.old) (K.sink sink.new) (line_text (word.now ∷ map field_text fields.now))) }
    ensures front { OnErr result (TakesFront (K.sink sink.old) (K.sink sink.new) (line_text (word.now ∷ map field_text fields.now))) }
{
    write_all(sink, word)?;
    write_fields(sink, fields)?;
    write_all(sink, b"\n")
}
