//! What explains a script, and what draws one: the texts and pictures of some scripts, byte for byte.
use crate::difference::print_difference;
use crate::files::bytes_of;
use crate::tally::Tally;
use shell_pictures::draw;
use shell_scripts::DONE;
use shell_texts::explain;
use std::{fs, io};

/// Explains and draws each script that the file `pictures` names, and prints a line for each whose text or picture
/// isn't the one that it must be.
pub fn compare_pictures(rt: &HostRuntime) -> io::Result<Tally> {
    let names = fs::read_to_string(rt, "pictures")?;
    let mut tally = Tally::new();
    for name in names.as_str().split_terminator('\n') {
        let script = bytes_of(rt, name, "drawn")?;
        tally.count(is_explained(rt, name, script.as_slice())?);
        tally.count(is_drawn(rt, name, script.as_slice())?);
    }
    Ok(tally)
}

/// Whether the script's text is the one in its file. Prints where it isn't.
fn is_explained(rt: &HostRuntime, name: &str, script: &[u8]) -> io::Result<bool> {
    let wanted = bytes_of(rt, name, "txt")?;
    let mut given = Vec::new(rt.alloc());
    let status = explain(rt.alloc(), None, &mut { script }, &mut given);
    agrees(rt, name, wanted.as_slice(), given.as_slice(), status)
}

/// Whether the script's picture is the one in its file. Prints where it isn't.
fn is_drawn(rt: &HostRuntime, name: &str, script: &[u8]) -> io::Result<bool> {
    let wanted = bytes_of(rt, name, "svg")?;
    let mut given = Vec::new(rt.alloc());
    let status = draw(rt.alloc(), None, &mut { script }, &mut given);
    agrees(rt, name, wanted.as_slice(), given.as_slice(), status)
}

/// Whether a script gives what it must, and ends well. Prints where it doesn't.
fn agrees(
    rt: &HostRuntime,
    name: &str,
    wanted: &[u8],
    given: &[u8],
    status: u8,
) -> io::Result<bool> {
    if given != wanted {
        print_difference(rt, name, wanted, given)?;
    }
    Ok(status == DONE && given == wanted)
}
