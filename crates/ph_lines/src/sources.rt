//! The next line of a source.
ghost use Rattle.ph_lines.specs.Lines.{Gets};

use crate::splits::{Front, take_line};
use ph_base::{Bytes, NoMemory};
use ph_io::Source;
use std::alloc::Global;

/// The next line of a source, or why there is none.
#[derive(Drop)]
pub enum LineRead {
    /// The line without its LF.
    Line(Bytes),
    /// The line is longer than 300,000 bytes.
    Long,
    /// The bytes end before an LF.
    End,
    /// A read failed.
    ReadFault,
    /// There was no memory.
    NoMemory,
}

/// The next line, of the bytes that an earlier call left unread and those that the source gives behind them. It reads
/// pieces of at most 4,096 bytes until a whole line is there; what it read beyond that line is left unread.
pub fn next_line<S: Source>(alloc: Global, unread: &mut Vec<u8>, source: &mut S) -> LineRead
    ensures { Gets unread.old.items unread.new.items result (S.source source.old) (S.source source.new) }
{
    let mut room = [0; 4096];
    loop {
        match take_line(alloc, unread) {
            Err(NoMemory) => return LineRead::NoMemory,
            Ok(Front::Line(line)) => return LineRead::Line(line),
            Ok(Front::Long) => return LineRead::Long,
            Ok(Front::Wants) => match source.read(&mut room) {
                Err(_) => return LineRead::ReadFault,
                Ok(0) => return LineRead::End,
                Ok(n) => match unread.extend_from_slice(&room[..n]) {
                    Err(_) => return LineRead::NoMemory,
                    Ok(()) => {}
                },
            },
        }
    }
}
