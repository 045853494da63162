//! A case whose calls and answers are written out.
use crate::stage::Hold;
use record_key::Refusal;
use std::alloc::Global;
use test_lines::{OUTSIDE, Words};

/// A case of lines: of one client on a thread of its own, of what is done while its message is held, and of what is
/// done after that.
#[derive(Clone, Copy)]
pub struct Table<'a> {
    pub sessions: usize,
    pub workers: usize,
    pub hold: Hold,
    pub there: &'a str,
    pub beside: &'a str,
    pub after: &'a str,
    /// The records that are left, or that the data component is down.
    pub left: &'a str,
}

impl<'a> Table<'a> {
    /// The case that a block of lines says.
    pub fn read(alloc: Global, block: &'a str) -> Result<Table<'a>, Refusal> {
        let (head, lines) = block.split_once('\n').ok_or(OUTSIDE)?;
        let (lines, left) = lines.split_once("leaves ").ok_or(OUTSIDE)?;
        let (there, beside, after) = sections(lines)?;
        let mut words = Words::new(alloc, head);
        let _name = words.word();
        Ok(Table {
            sessions: words.number()? as usize,
            workers: words.number()? as usize,
            hold: hold(words.word())?,
            there,
            beside,
            after,
            left,
        })
    }
}

// The lines of the thread, those beside it, and those after it: the last alone, where there is no thread.
fn sections(lines: &str) -> Result<(&str, &str, &str), Refusal> {
    let Some((there, lines)) = lines.split_once("beside\n") else {
        return Ok(("", "", lines));
    };
    let (beside, after) = lines.split_once("then\n").ok_or(OUTSIDE)?;
    Ok((there, beside, after))
}

fn hold(word: &str) -> Result<Hold, Refusal> {
    match word {
        "nowhere" => Ok(Hold::Nowhere),
        "request" => Ok(Hold::Request),
        "serving" => Ok(Hold::Serving),
        "reply" => Ok(Hold::Reply),
        _ => Err(OUTSIDE),
    }
}
