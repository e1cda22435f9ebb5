//! The words of a program.

use std::{env, io};

/// The words after the program's name. Where one of them is no text, no command is meant, and there
/// are none. Fails only where memory runs out.
pub fn command_words(rt: &HostRuntime) -> io::Result<Vec<String>> {
    match env::args(rt) {
        Ok(words) => Ok(words.skip(1).collect(rt.alloc())?),
        Err(error) if error.kind() == io::ErrorKind::OutOfMemory => Err(error),
        Err(_) => Ok(Vec::new(rt.alloc())),
    }
}
