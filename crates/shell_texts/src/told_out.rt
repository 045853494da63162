//! What a step came to, in words.
use crate::text::Text;
use history::Record;
use shell_story::node_world::Out;
use shell_story::shell_scripts::request;
use shell_story::{Doing, Step, Story, find, label_of};

/// What a step came to, and the end of its line.
pub fn tell_out(text: &mut Text<'_, Vec<u8>>, story: &Story<'_>, step: &Step<'_>) {
    match &step.out {
        Out::Refused(refusal) => {
            text.say("refused, so nothing changes: ");
            text.refusal(*refusal);
        }
        Out::Stable { end, committed } => {
            numbered(text, "the log is stable up to ", *end);
            tell_committed(text, story, committed.as_slice());
        }
        Out::Connects { request, committed } => {
            numbered(text, "a session is started by request ", *request);
            tell_committed(text, story, committed.as_slice());
        }
        Out::Answered { .. } => told(text, "its client is told: ", &step.out),
        Out::Row { .. } => told(text, "its client is told: ", &step.out),
        Out::Rows { txn, rows } => {
            named(
                text,
                "",
                story,
                *txn,
                " is given the rows that it asked for: ",
            );
            numbered(text, "", rows.len() as u64);
        }
        Out::Compensated(number) => tell_comp(text, story, *number),
        out => tell_plain(text, story, step, out),
    }
}

fn told(text: &mut Text<'_, Vec<u8>>, words: &str, out: &Out) {
    text.say(words);
    text.told(out);
}

fn tell_committed(text: &mut Text<'_, Vec<u8>>, story: &Story<'_>, committed: &[u64]) {
    for txn in committed {
        named(
            text,
            "    ",
            story,
            *txn,
            " has committed, and its keys are free.\n",
        );
    }
}

/// A compensation: what it undoes, and what is left.
fn tell_comp(text: &mut Text<'_, Vec<u8>>, story: &Story<'_>, number: u64) {
    let Some(logged) = find(story.log.as_slice(), number) else {
        text.say("a compensation\n");
        return;
    };
    match &logged.record {
        Record::Comp {
            txn,
            undoes,
            next,
            ..
        } => {
            named(text, "", story, *txn, " undoes ");
            text.number(*undoes).say(" by ").number(number);
            tell_left(text, *next);
        }
        _ => {
            text.say("a compensation\n");
        }
    }
}

fn tell_left(text: &mut Text<'_, Vec<u8>>, next: u64) {
    if next == 0 {
        text.say("; nothing of it is left to undo\n");
    } else {
        numbered(text, "; what is left to undo of it begins at ", next);
    }
}

/// An output with one number or none.
fn tell_plain(text: &mut Text<'_, Vec<u8>>, story: &Story<'_>, step: &Step<'_>, out: &Out) {
    match out {
        Out::Begun(txn) => named(text, "", story, *txn, " begins\n"),
        Out::Logged(number) => numbered(text, "logged as ", *number),
        Out::Saved(savepoint) => numbered(text, "savepoint ", *savepoint),
        Out::RollingBack => named(text, "", story, step.txn, " begins to roll back\n"),
        Out::CommitLogged(number) => numbered(text, "its commit is logged as ", *number),
        Out::RolledBack(txn) => named(
            text,
            "",
            story,
            *txn,
            " is rolled back, and its keys are free\n",
        ),
        Out::Back { txn, savepoint } => {
            named(text, "", story, *txn, " is back at its savepoint ");
            numbered(text, "", *savepoint);
        }
        Out::Lost(txn) => named(
            text,
            "",
            story,
            *txn,
            " is lost: undone, and its keys are free\n",
        ),
        Out::Asked(number) => numbered(text, "asks by read ", *number),
        Out::Sent(number) => numbered(text, "sent as request ", *number),
        Out::Replied(number) => numbered(text, "answered by reply ", *number),
        Out::Connected(session) => numbered(text, "connected in session ", *session),
        Out::RedoEnded(session) => numbered(text, "redo has ended in session ", *session),
        Out::Undone(number) => numbered(text, "undone for good by compensation ", *number),
        Out::CheckpointLogged(number) => numbered(text, "the checkpoint is logged as ", *number),
        Out::Up(count) => numbered(text, up_words(step.doing), *count),
        other => {
            text.say(words_of(other, step.doing));
        }
    }
}

fn up_words(doing: Doing) -> &'static str {
    if matches!(doing, Doing::RestartTc) {
        "the transaction component runs again; records left: "
    } else {
        "the data component runs again; leaves: "
    }
}

fn words_of(out: &Out, doing: Doing) -> &'static str {
    match (out, doing) {
        (Out::Down, Doing::CrashTc) => "the transaction component is down\n",
        (Out::Down, _) => "the data component is down\n",
        (Out::Noted, _) => "the data component knows what is stable\n",
        (Out::Split(_), _) => "a leaf is split\n",
        (Out::Merged(_), _) => "two leaves are joined\n",
        (Out::Flushed(_), _) => "a leaf is written\n",
        (Out::Set, _) => "a failure is set\n",
        (Out::Nothing, Doing::Reply(_)) => "nothing new\n",
        _ => "nothing happens\n",
    }
}

fn numbered(text: &mut Text<'_, Vec<u8>>, words: &str, number: u64) {
    text.say(words).number(number).say("\n");
}

/// A transaction by its label and its number, and what is said of it.
fn named(text: &mut Text<'_, Vec<u8>>, before: &str, story: &Story<'_>, txn: u64, words: &str) {
    text.say(before);
    put_name(text, label_of(story.actors.as_slice(), txn), txn);
    text.say(words);
}

/// A transaction's label and number.
pub fn put_name(text: &mut Text<'_, Vec<u8>>, label: &[u8], txn: u64) {
    text.bytes(label).say(" (").number(txn).say(")");
}
