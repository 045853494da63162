//! What a crash has taken, in words. It shows at the restart: so it is read from the story of the whole script.
use crate::text::Text;
use shell_story::node_world::Out;
use shell_story::{Change, Doing, Step, Story, What};

/// The lines of what the crash in this step has taken.
pub fn tell_losses(text: &mut Text<'_, Vec<u8>>, whole: &Story<'_>, doing: Doing, at: usize) {
    if matches!(doing, Doing::CrashTc) {
        tell_log_losses(text, whole, at);
    } else if let Some(restart) = restart_behind(whole.steps.as_slice(), at) {
        tell_leaf_losses(text, whole.changes.as_slice(), restart);
    }
}

fn tell_log_losses(text: &mut Text<'_, Vec<u8>>, whole: &Story<'_>, at: usize) {
    let mut is_any = false;
    for logged in whole.log.as_slice() {
        if logged.lost == Some(at) {
            text.say("    lost: ");
            text.record(logged.number, &logged.record);
            is_any = true;
        }
    }
    if !is_any {
        text.say("    of the log nothing is lost.\n");
    }
}

/// The step that opens the data component again behind a crash.
fn restart_behind(steps: &[Step<'_>], crash: usize) -> Option<usize> {
    for at in crash..steps.len() {
        if matches!(
            (steps[at].doing, &steps[at].out),
            (Doing::RestartDc, Out::Up(_))
        ) {
            return Some(at);
        }
    }
    None
}

fn tell_leaf_losses(text: &mut Text<'_, Vec<u8>>, changes: &[Change], restart: usize) {
    let mut is_any = false;
    for change in changes {
        if change.step == restart {
            is_any |= tell_loss(text, change);
        }
    }
    if !is_any {
        text.say("    of what leaves had captured nothing is lost.\n");
    }
}

/// Gives whether the change is a loss.
fn tell_loss(text: &mut Text<'_, Vec<u8>>, change: &Change) -> bool {
    match change.what {
        What::Loses(number) => put_loss(text, change.leaf, " no longer has captured ", number),
        What::Low(low) => put_loss(text, change.leaf, " is back at low ", low),
        What::Ends => put_gone(text, change.leaf),
        _ => return false,
    }
    true
}

fn put_loss(text: &mut Text<'_, Vec<u8>>, leaf: u64, words: &str, number: u64) {
    text.say("    lost: leaf ")
        .number(leaf)
        .say(words)
        .number(number)
        .say(".\n");
}

/// A leaf whose split wasn't stable.
fn put_gone(text: &mut Text<'_, Vec<u8>>, leaf: u64) {
    text.say("    lost: leaf ").number(leaf).say(
        " is gone, with what it had captured: its split wasn't stable.\n",
    );
}
