//! What a line or an event is.
use crate::step::Doing;
use shell_scripts::node_world::Event;
use shell_scripts::{Call, Line, Shell};

/// What the event of a line is, and whose.
pub fn of_line(line: &Line<'_>, shell: &Shell) -> (Doing, u64) {
    match line {
        Line::Begin(_) => (Doing::Begin, 0),
        Line::Write { label, .. } => (Doing::Write, shell.bound(label)),
        Line::Add { label, .. } => (Doing::Write, shell.bound(label)),
        Line::Get { label, .. } => (Doing::Ask, shell.bound(label)),
        Line::Scan { label, .. } => (Doing::Ask, shell.bound(label)),
        Line::Prefix { label, .. } => (Doing::Ask, shell.bound(label)),
        Line::Call { label, call } => (of_call(*call), shell.bound(label)),
        Line::Leaf { .. } => (Doing::Leaf, 0),
        Line::Step(event) => of_event(event),
        Line::Settle(_) | Line::Table | Line::Forget | Line::Show(_) => (Doing::Show, 0),
    }
}

fn of_call(call: Call) -> Doing {
    match call {
        Call::Save => Doing::Save,
        Call::Back { savepoint } => Doing::GoBack(savepoint),
        Call::Rollback => Doing::Rollback,
        Call::Commit => Doing::Commit,
        Call::Send => Doing::Send,
        Call::Undo => Doing::Undo,
    }
}

/// What an event is, and whose.
pub fn of_event(event: &Event) -> (Doing, u64) {
    match event {
        Event::Send { txn } => (Doing::Send, *txn),
        Event::Undo { txn } => (Doing::Undo, *txn),
        _ => (of_component(event), 0),
    }
}

fn of_component(event: &Event) -> Doing {
    match event {
        Event::Reconnect => Doing::Connect,
        Event::Recover => Doing::Recover,
        Event::Force => Doing::Force,
        Event::LowWater { .. } => Doing::Low,
        Event::Checkpoint => Doing::Checkpoint,
        Event::Tell => Doing::Tell,
        Event::Request { number } => Doing::Request(*number),
        Event::Reply { number } => Doing::Reply(*number),
        Event::CrashTc { .. } => Doing::CrashTc,
        Event::RestartTc => Doing::RestartTc,
        Event::CrashDc { .. } => Doing::CrashDc,
        Event::RestartDc => Doing::RestartDc,
        Event::FailTc { .. } | Event::FailDc { .. } => Doing::Fail,
        _ => Doing::Leaf,
    }
}
