//! What holds of the text and of the picture of every script.
use crate::files::bytes_of;
use crate::markup::is_well_formed;
use crate::tally::Tally;
use shell_pictures::draw;
use shell_scripts::run;
use shell_texts::explain;
use std::alloc::Global;
use std::io;

/// The most columns of a line.
const COLUMNS: usize = 100;

/// Explains and draws each of these scripts, and prints a line for each that has a line of more columns than it may, a
/// picture whose tags don't match, or another exit status than a run.
pub fn compare_all(rt: &HostRuntime, names: &[String]) -> io::Result<Tally> {
    let mut tally = Tally::new();
    for name in names {
        let script = bytes_of(rt, name.as_str(), "script")?;
        let explains = explains(rt.alloc(), script.as_slice());
        let draws = draws(rt.alloc(), script.as_slice());
        if !explains || !draws {
            println!(rt; "{name}: explained {explains}, drawn {draws}")?;
        }
        tally.count(explains);
        tally.count(draws);
    }
    Ok(tally)
}

fn explains(alloc: Global, script: &[u8]) -> bool {
    let mut text = Vec::new(alloc);
    let status = explain(alloc, None, &mut { script }, &mut text);
    status == status_of(alloc, script) && is_narrow(text.as_slice())
}

fn is_narrow(text: &[u8]) -> bool {
    text.split(|byte| *byte == b'\n')
        .all(|line| line.len() <= COLUMNS)
}

/// A script that isn't in the grammar has no picture.
fn draws(alloc: Global, script: &[u8]) -> bool {
    let mut picture = Vec::new(alloc);
    let status = draw(alloc, None, &mut { script }, &mut picture);
    let is_picture = picture.as_slice().starts_with(b"<svg ");
    let is_refusal = picture.as_slice().starts_with(b"no 17 BadScript ");
    status == status_of(alloc, script)
        && (is_refusal || is_picture && is_well_formed(picture.as_slice()))
}

fn status_of(alloc: Global, script: &[u8]) -> u8 {
    let mut text = Vec::new(alloc);
    run(alloc, false, &mut { script }, &mut text)
}
