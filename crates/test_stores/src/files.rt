//! The folder in which a store is made, and its files.
use std::io::ErrorKind;
use std::{fs, io};

/// The folder's name.
pub const FOLDER: &str = "made_store";

/// The name of the file that has a store's log.
pub const LOG: &str = "log";

/// Removes the folder with all that is in it, if it is there.
pub fn remove(rt: &HostRuntime) -> io::Result<()> {
    match fs::remove_dir_all(rt, FOLDER) {
        Err(error) if error.kind() == ErrorKind::NotFound => Ok(()),
        removed => removed,
    }
}

/// Makes the folder, empty.
pub fn make(rt: &HostRuntime) -> io::Result<()> {
    remove(rt)?;
    fs::create_dir(rt, FOLDER)
}

fn path(rt: &HostRuntime, name: &str) -> io::Result<String> {
    Ok(format!(in rt.alloc(); "{FOLDER}/{name}")?)
}

/// Writes a file with these bytes alone.
pub fn write(rt: &HostRuntime, name: &str, bytes: &[u8]) -> io::Result<()> {
    fs::write(rt, path(rt, name)?.as_str(), bytes)
}

pub fn read(rt: &HostRuntime, name: &str) -> io::Result<Vec<u8>> {
    fs::read(rt, path(rt, name)?.as_str())
}

/// Makes a folder where a file is looked for.
pub fn make_folder(rt: &HostRuntime, name: &str) -> io::Result<()> {
    fs::create_dir(rt, path(rt, name)?.as_str())
}

pub fn remove_one(rt: &HostRuntime, name: &str) -> io::Result<()> {
    fs::remove_file(rt, path(rt, name)?.as_str())
}

/// The names of the files, in order.
pub fn names(rt: &HostRuntime) -> io::Result<Vec<String>> {
    let mut names = Vec::new(rt.alloc());
    for entry in fs::read_dir(rt, FOLDER)? {
        names.push(String::from_str(rt.alloc(), entry?.file_name())?)?;
    }
    names.sort()?;
    Ok(names)
}
