//! What steps do in the lane of a transaction.
use crate::labels::put_numbered;
use crate::shapes::{put_box, put_circle, put_line};
use crate::sheet::{At, Sheet};
use history::Record;
use shell_texts::Text;
use shell_texts::node_world::Out;
use shell_texts::shell_story::{Actor, Logged, Step, txn_of};
use std::io;

/// What a step does in the lane of a transaction.
pub fn draw_step<W: io::Write>(
    text: &mut Text<'_, W>,
    log: &[Logged],
    actor: &Actor<'_>,
    step: &Step<'_>,
    sheet: Sheet,
    at: At,
) {
    match &step.out {
        Out::Compensated(number) if is_of(log, *number, actor.txn) => {
            put_box(text, "comp", at, sheet.boxed, 17);
            put_figure(text, at, *number);
        }
        Out::Logged(number) if step.txn == actor.txn => {
            put_circle(text, "op", at, sheet.boxed / 2 + 1);
            put_figure(text, at, *number);
        }
        Out::CommitLogged(number) if step.txn == actor.txn => {
            put_circle(text, "answer", at, sheet.boxed / 2 + 1);
            put_figure(text, at, *number);
        }
        Out::Saved(savepoint) if step.txn == actor.txn => put_saved(text, at, *savepoint),
        Out::RollingBack if step.txn == actor.txn => put_triangle(text, at),
        Out::Asked(_) if step.txn == actor.txn => put_circle(text, "op", at, 4),
        Out::Begun(txn) if *txn == actor.txn => put_tick(text, at),
        _ => {}
    }
}

fn is_of(log: &[Logged], number: u64, txn: u64) -> bool {
    for logged in log {
        if logged.number == number && txn_of(&logged.record) == txn && is_comp(&logged.record) {
            return true;
        }
    }
    false
}

fn is_comp(record: &Record) -> bool {
    matches!(record, Record::Comp { .. })
}

fn put_figure<W: io::Write>(text: &mut Text<'_, W>, at: At, number: u64) {
    let foot = At {
        x: at.x,
        y: at.y.saturating_add(4),
    };
    put_numbered(text, "number", foot, "", number);
}

fn put_saved<W: io::Write>(text: &mut Text<'_, W>, at: At, savepoint: u64) {
    put_tick(text, at);
    let foot = At {
        x: at.x,
        y: at.y.saturating_sub(8),
    };
    put_numbered(text, "number", foot, "s", savepoint);
}

fn put_tick<W: io::Write>(text: &mut Text<'_, W>, at: At) {
    let top = At {
        x: at.x,
        y: at.y.saturating_sub(6),
    };
    let foot = At {
        x: at.x,
        y: at.y.saturating_add(6),
    };
    put_line(text, "thick", top, foot);
}

fn put_triangle<W: io::Write>(text: &mut Text<'_, W>, at: At) {
    let top = At {
        x: at.x.saturating_add(5),
        y: at.y.saturating_sub(7),
    };
    let tip = At {
        x: at.x.saturating_sub(7),
        y: at.y,
    };
    text.say("<path class=\"ink\" d=\"M")
        .place(top.x, top.y)
        .say("v14L")
        .place(tip.x, tip.y)
        .say("z\"/>\n");
}
