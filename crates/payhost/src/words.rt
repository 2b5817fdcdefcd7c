//! The words of the command line.

use ph_base::{Bytes, NoMemory};
use std::alloc::Global;
use std::env;
use std::io::{self, ErrorKind};

/// The words behind the program's own name. Words of which one isn't UTF-8 ask for nothing that payhost does, as no
/// words do.
pub fn words(alloc: Global, args: io::Result<env::Args>) -> Result<Vec<Bytes>, NoMemory> {
    let mut words = Vec::new(alloc);
    let args = match args {
        Ok(args) => args,
        Err(why) if why.kind() == ErrorKind::OutOfMemory => return Err(NoMemory),
        Err(_) => return Ok(words),
    };
    for word in args.skip(1) {
        words.push(Bytes::from_slice(alloc, word.as_bytes())?)?;
    }
    Ok(words)
}
