//! The files of a script.
use std::{fs, io};

/// The bytes of the file NAME.ENDING.
pub fn bytes_of(rt: &HostRuntime, name: &str, ending: &str) -> io::Result<Vec<u8>> {
    fs::read(rt, format!(in rt.alloc(); "{name}.{ending}")?.as_str())
}

/// The text of the file NAME.ENDING.
pub fn text_of(rt: &HostRuntime, name: &str, ending: &str) -> io::Result<String> {
    fs::read_to_string(rt, format!(in rt.alloc(); "{name}.{ending}")?.as_str())
}
