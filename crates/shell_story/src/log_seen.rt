//! The log as it is seen behind each step: its new records, its stable end, and what a crash has taken.
use crate::logged::Logged;
use crate::step::{Doing, Step};
use crate::story::Story;
use history::Record;
use record_key::Refusal;
use shell_scripts::node_world::Out;

pub fn see_log(story: &mut Story<'_>, step: &Step<'_>, at: usize) -> Result<(), Refusal> {
    let (Ok(records), Ok(stable)) = (story.shell.world.records(), story.shell.world.stable_end())
    else {
        return Ok(());
    };
    if let (Doing::RestartTc, Out::Up(_)) = (step.doing, &step.out) {
        lose(story, records);
    }
    for before in story.now.records..records {
        see_record(story, before.saturating_add(1), at)?;
    }
    story.now.records = records;
    if stable > story.now.stable {
        mark_stable(story.log.as_mut_slice(), stable);
    }
    story.now.stable = stable;
    Ok(())
}

/// A record that is new.
fn see_record(story: &mut Story<'_>, number: u64, at: usize) -> Result<(), Refusal> {
    let Ok(Some(record)) = story.shell.world.record(number) else {
        return Ok(());
    };
    if let Record::Answer { of, .. } = &record {
        set_answered(story.log.as_mut_slice(), *of, true);
    }
    let logged = Logged {
        number,
        record,
        born: at,
        is_stable: false,
        is_answered: false,
        lost: None,
    };
    story.log.push(logged)?;
    Ok(())
}

/// Whether the record of this number has its answer.
fn set_answered(log: &mut [Logged], number: u64, is_answered: bool) {
    for logged in log {
        if logged.number == number && logged.lost.is_none() {
            logged.is_answered = is_answered;
        }
    }
}

fn mark_stable(log: &mut [Logged], stable: u64) {
    for logged in log {
        if logged.number <= stable && logged.lost.is_none() {
            logged.is_stable = true;
        }
    }
}

/// The records above this number were lost in the last crash; what they answered is unanswered.
fn lose(story: &mut Story<'_>, kept: u64) {
    for place in 0..story.log.len() {
        let of = lose_at(story.log.as_mut_slice(), place, kept, story.now.crash);
        if let Some(of) = of {
            set_answered(story.log.as_mut_slice(), of, false);
        }
    }
    story.now.records = story.now.records.min(kept);
    story.now.stable = story.now.stable.min(kept);
}

/// Gives the record whose answer is lost.
fn lose_at(log: &mut [Logged], place: usize, kept: u64, crash: usize) -> Option<u64> {
    let logged = log.get_mut(place)?;
    if logged.number <= kept || logged.lost.is_some() {
        return None;
    }
    logged.lost = Some(crash);
    match &logged.record {
        Record::Answer { of, .. } => Some(*of),
        _ => None,
    }
}

/// The record of this number that no crash has taken.
pub fn find<'a>(log: &'a [Logged], number: u64) -> Option<&'a Logged> {
    for logged in log {
        if logged.number == number && logged.lost.is_none() {
            return Some(logged);
        }
    }
    None
}

/// Whose the record is, 0 if no transaction's.
pub fn txn_of(record: &Record) -> u64 {
    match record {
        Record::Op { txn, .. }
        | Record::Comp { txn, .. }
        | Record::Commit { txn }
        | Record::End { txn } => *txn,
        _ => 0,
    }
}

/// Whether the record's operation is to be answered.
pub fn is_asked(record: &Record) -> bool {
    matches!(
        record,
        Record::Op { .. }
            | Record::Comp {
                inverse: Some(_),
                ..
            }
    )
}
