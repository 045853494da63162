//! Labels that are given away before what they name has ended.
use shell_scripts::node_world::Event;
use shell_scripts::{Call, Label, Line, request};
use std::alloc::{AllocError, Global};
use std::collections::BTreeMap;

/// A line that begins a label again, behind one since which no line has committed or rolled back what it names.
#[derive(Clone, Copy)]
pub struct Rebound {
    pub line: u64,
    pub earlier: u64,
}

/// The first such line of a script.
pub fn first_rebound(alloc: Global, script: &[u8]) -> Result<Option<Rebound>, AllocError> {
    let mut begun = BTreeMap::new(alloc);
    let mut number = 0u64;
    for line in script.split(|byte| *byte == b'\n') {
        number = number.saturating_add(1);
        if let Some(earlier) = take(&mut begun, number, line)? {
            return Ok(Some(Rebound {
                line: number,
                earlier,
            }));
        }
    }
    Ok(None)
}

/// Takes a line. Gives the line that has begun the same label, where that has ended nowhere since.
fn take(
    begun: &mut BTreeMap<Label, u64>,
    number: u64,
    line: &[u8],
) -> Result<Option<u64>, AllocError> {
    match request(line) {
        Some(Line::Begin(label)) => Ok(begun.insert(label, number)?),
        Some(
            Line::Call {
                label,
                call: Call::Commit | Call::Rollback,
            },
        ) => {
            let _ended = begun.remove(&label);
            Ok(None)
        }
        // Whoever is open then is lost.
        Some(Line::Step(Event::CrashTc { .. })) => {
            begun.clear();
            Ok(None)
        }
        _ => Ok(None),
    }
}
