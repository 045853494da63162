//! How the transactions stand, in words: who is open, waits, rolls back or commits, who holds which keys and how, and
//! what undo does next.
use crate::text::Text;
use crate::told_out::put_name;
use crate::undoing::tell_undo;
use shell_story::{Actor, End, Hold, Mode, State, Story};

/// A line of each transaction that hasn't ended.
pub fn tell_txns(text: &mut Text<'_, Vec<u8>>, story: &Story<'_>) {
    for actor in story.actors.as_slice() {
        if story.now.is_tc_up && actor.ended.is_none() {
            tell_txn(text, story, actor);
        }
    }
}

fn tell_txn(text: &mut Text<'_, Vec<u8>>, story: &Story<'_>, actor: &Actor<'_>) {
    text.say("  ");
    put_name(text, actor.label, actor.txn);
    tell_state(text, actor);
    tell_waiting(text, story, actor);
    tell_holds(text, story.holds.as_slice(), actor.txn);
    text.say(".\n");
    if matches!(actor.state, State::Rolling { .. } | State::Loser) {
        tell_undo(text, story, actor);
    }
}

fn tell_state(text: &mut Text<'_, Vec<u8>>, actor: &Actor<'_>) {
    match actor.state {
        State::Rolling { bound: 0 } => {
            text.say(" is being rolled back");
        }
        State::Rolling { bound } => {
            text.say(" is being rolled back to record ").number(bound);
        }
        state => {
            text.say(words_of(state));
        }
    }
}

fn words_of(state: State) -> &'static str {
    match state {
        State::Open => " is open",
        State::Rolling { .. } => " is being rolled back",
        State::Committing => " is committing, and told so once its Commit record is stable",
        State::Loser => " was found open by a crash and is undone by recovery",
        State::Committed => " has committed",
        State::RolledBack => " is rolled back",
        State::Lost => " is lost",
        State::Gone => " is gone: a crash has taken its Begin record",
    }
}

fn tell_waiting(text: &mut Text<'_, Vec<u8>>, story: &Story<'_>, actor: &Actor<'_>) {
    match actor.waiting {
        Some(number) => {
            text.say(", waits for the answer to ").number(number);
            if number > story.now.stable {
                text.say(" (not stable yet)");
            }
        }
        None if actor.is_reading => {
            text.say(", waits for what it reads");
        }
        None => {}
    }
}

/// What the transaction holds, by how it does.
fn tell_holds(text: &mut Text<'_, Vec<u8>>, holds: &[Hold], txn: u64) {
    tell_held(text, holds, txn, Mode::Exclusive, "; holds exclusively ");
    tell_held(text, holds, txn, Mode::Increment, "; holds for increments ");
    tell_held(text, holds, txn, Mode::Shared, "; holds shared ");
}

fn tell_held(text: &mut Text<'_, Vec<u8>>, holds: &[Hold], txn: u64, mode: Mode, words: &str) {
    let mut is_first = true;
    for hold in holds {
        if hold.txn == txn && hold.mode == mode {
            text.say(if is_first { words } else { ", " });
            tell_span(text, hold);
            is_first = false;
        }
    }
}

/// A key, or the keys from one on.
fn tell_span(text: &mut Text<'_, Vec<u8>>, hold: &Hold) {
    text.key(&hold.low);
    match &hold.end {
        End::Single => {}
        End::Below(high) => {
            text.say(" to below ").key(high);
        }
        End::Open => {
            text.say(" and all above");
        }
    }
}
