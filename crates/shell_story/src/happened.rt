//! What an event has changed is noted.
use crate::actors::note_actors;
use crate::leaves_seen::see_leaves;
use crate::log_seen::see_log;
use crate::messages::note_messages;
use crate::step::{Doing, Step};
use crate::story::Story;
use record_key::Refusal;
use shell_scripts::node_world::Out;

/// Notes the step; a transaction that begins in it has this label.
pub fn note<'a>(story: &mut Story<'a>, step: Step<'a>, label: &'a [u8]) -> Result<(), Refusal> {
    note_parts(story, &step, label)?;
    story.steps.push(step)?;
    Ok(())
}

fn note_parts<'a>(story: &mut Story<'a>, step: &Step<'a>, label: &'a [u8]) -> Result<(), Refusal> {
    let at = story.steps.len();
    note_components(story, step, at);
    see_log(story, step, at)?;
    note_actors(story, step, label, at)?;
    note_messages(story, step, at)?;
    see_leaves(story, step, at)
}

fn note_components(story: &mut Story<'_>, step: &Step<'_>, at: usize) {
    match (step.doing, &step.out) {
        (Doing::CrashTc, Out::Down) => {
            story.now.is_tc_up = false;
            story.now.crash = at;
        }
        (Doing::CrashDc, Out::Down) => {
            story.now.is_dc_up = false;
            story.now.dc_crash = at;
        }
        (Doing::RestartTc, Out::Up(_)) => story.now.is_tc_up = true,
        (Doing::RestartDc, Out::Up(_)) => story.now.is_dc_up = true,
        (Doing::Connect, Out::Connects { .. }) => {
            story.now.sessions = story.now.sessions.saturating_add(1);
        }
        _ => {}
    }
}
