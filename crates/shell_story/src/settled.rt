//! A line that settles, round by round, each event a step of its own.
use crate::about::of_event;
use crate::happened::note;
use crate::step::{Step, is_failure};
use crate::story::Story;
use record_key::Refusal;
use shell_scripts::node_world::{Event, Out, Round};

/// More rounds than any script takes.
const MOST_ROUNDS: u64 = 1 << 32;

/// What a line is called in its steps.
#[derive(Clone, Copy)]
struct Origin<'a> {
    line: u64,
    text: &'a [u8],
}

/// Plays rounds, so many at most where there is a number, until none is left. Gives whether memory or a device failed.
pub fn settle_line<'a>(
    story: &mut Story<'a>,
    line: u64,
    text: &'a [u8],
    most: Option<u64>,
) -> Result<bool, Refusal> {
    let origin = Origin { line, text };
    for _ in 0..most.unwrap_or(MOST_ROUNDS) {
        let Some(round) = story.shell.world.next_round() else {
            return Ok(false);
        };
        if play(story, origin, round)? {
            return Ok(has_failed(story.steps.as_slice()));
        }
    }
    Ok(false)
}

/// Whether memory or a device failed in the last step.
fn has_failed(steps: &[Step<'_>]) -> bool {
    match steps.last() {
        Some(step) => is_failure(&step.out),
        None => false,
    }
}

/// Plays a round. Gives whether one of its events was refused.
fn play<'a>(story: &mut Story<'a>, origin: Origin<'a>, round: Round) -> Result<bool, Refusal> {
    match round {
        Round::RestartDc => perform(story, origin, &Event::RestartDc),
        Round::RestartTc => perform(story, origin, &Event::RestartTc),
        Round::Connect => exchange(story, origin, &Event::Reconnect),
        Round::Recover => exchange(story, origin, &Event::Recover),
        Round::Lose => perform(story, origin, &Event::Recover),
        Round::Exchange { txn } => exchange(story, origin, &Event::Send { txn }),
        Round::Force => perform(story, origin, &Event::Force),
        Round::Undo { txn } => perform(story, origin, &Event::Undo { txn }),
    }
}

/// An event that sends a request, the request's delivery, and that of its reply.
fn exchange<'a>(story: &mut Story<'a>, origin: Origin<'a>, event: &Event) -> Result<bool, Refusal> {
    if perform(story, origin, event)? {
        return Ok(true);
    }
    let number = story.shell.world.requests();
    if perform(story, origin, &Event::Request { number })? {
        return Ok(true);
    }
    let number = story.shell.world.replies();
    perform(story, origin, &Event::Reply { number })
}

fn perform<'a>(story: &mut Story<'a>, origin: Origin<'a>, event: &Event) -> Result<bool, Refusal> {
    let (doing, txn) = of_event(event);
    let out = story.shell.world.step(event);
    let refused = matches!(out, Out::Refused(_));
    let step = Step {
        line: origin.line,
        text: origin.text,
        is_round: true,
        doing,
        txn,
        out,
    };
    note(story, step, b"?")?;
    Ok(refused)
}

/// Opens what is down behind the script's end.
pub fn open_both(story: &mut Story<'_>) -> Result<(), Refusal> {
    let origin = Origin { line: 0, text: b"" };
    if !story.now.is_tc_up {
        let _refused = perform(story, origin, &Event::RestartTc)?;
    }
    if !story.now.is_dc_up {
        let _refused = perform(story, origin, &Event::RestartDc)?;
    }
    Ok(())
}
