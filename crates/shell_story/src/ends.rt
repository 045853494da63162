//! Which keys a line takes.
use crate::actor::{End, Hold, Mode};
use crate::story::Story;
use record_key::{Key, Refusal};
use shell_scripts::node_world::Out;
use shell_scripts::row_ranges::beginning_end;
use shell_scripts::{Line, Written};

/// The keys that the line takes for this transaction, where it isn't refused.
pub fn take_keys(
    story: &mut Story<'_>,
    line: &Line<'_>,
    txn: u64,
    out: &Out,
) -> Result<(), Refusal> {
    let of = match out {
        Out::Logged(number) => *number,
        Out::Asked(_) => 0,
        _ => return Ok(()),
    };
    let hold = match line {
        Line::Write { key, .. } => hold(txn, of, key, End::Single, Mode::Exclusive)?,
        Line::Add { key, .. } => hold(txn, of, key, End::Single, Mode::Increment)?,
        Line::Get { key, .. } => hold(txn, of, key, End::Single, Mode::Shared)?,
        Line::Scan { low, high, .. } => hold(txn, of, low, end_of(high)?, Mode::Shared)?,
        Line::Prefix { text, .. } => hold(txn, of, text, end_behind(text)?, Mode::Shared)?,
        _ => return Ok(()),
    };
    add(&mut story.holds, hold)
}

fn hold(txn: u64, of: u64, low: &Written<'_>, end: End, mode: Mode) -> Result<Hold, Refusal> {
    Ok(Hold {
        txn,
        of,
        low: Key::new(low.as_bytes())?,
        end,
        mode,
    })
}

fn end_of(high: &Option<Written<'_>>) -> Result<End, Refusal> {
    match high {
        Some(high) => Ok(End::Below(Key::new(high.as_bytes())?)),
        None => Ok(End::Open),
    }
}

fn end_behind(text: &Written<'_>) -> Result<End, Refusal> {
    match beginning_end(&Key::new(text.as_bytes())?) {
        Some(end) => Ok(End::Below(end)),
        None => Ok(End::Open),
    }
}

/// Adds what isn't held already so, or exclusively.
fn add(holds: &mut Vec<Hold>, hold: Hold) -> Result<(), Refusal> {
    for other in holds.as_slice() {
        if covers(other, &hold) {
            return Ok(());
        }
    }
    holds.push(hold)?;
    Ok(())
}

fn covers(held: &Hold, hold: &Hold) -> bool {
    held.txn == hold.txn
        && held.low == hold.low
        && held.end == hold.end
        && (held.mode == hold.mode || held.mode == Mode::Exclusive)
}

/// What the transaction held isn't held any more.
pub fn let_go(holds: &mut Vec<Hold>, txn: u64) {
    holds.retain(|hold| hold.txn != txn);
}

/// Behind a crash just the operations that are left hold keys.
pub fn keep_logged(holds: &mut Vec<Hold>, kept: u64) {
    holds.retain(|hold| hold.of >= 1 && hold.of <= kept);
}
