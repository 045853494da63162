//! Messages, as arrows between the two components.
use crate::labels::{put_label, put_numbered};
use crate::shapes::{put_cross, put_line};
use crate::sheet::{At, NAME, Sheet};
use shell_texts::Text;
use shell_texts::shell_story::{Delivery, Fate, Message, Story};
use std::io;

pub fn draw_messages<W: io::Write>(text: &mut Text<'_, W>, story: &Story<'_>, sheet: Sheet) {
    draw_side(text, sheet, sheet.tc, "TC");
    draw_side(text, sheet, sheet.dc, "DC");
    for message in story.messages.as_slice() {
        if sheet.is_drawn(message.sent) {
            draw_number(text, sheet, message);
            draw_lost(text, story.deliveries.as_slice(), sheet, message);
        }
    }
    for delivery in story.deliveries.as_slice() {
        if sheet.is_drawn(delivery.step) {
            draw_delivery(text, sheet, delivery);
        }
    }
}

/// The line of a component.
fn draw_side<W: io::Write>(text: &mut Text<'_, W>, sheet: Sheet, y: u64, name: &str) {
    let place = At {
        x: NAME,
        y: y.saturating_add(4),
    };
    put_label(text, "name", place, name);
    put_line(
        text,
        "faint",
        sheet.at(sheet.first, y),
        sheet.at(sheet.end, y),
    );
}

/// The lines from which and to which a message goes.
fn ends_of(sheet: Sheet, is_reply: bool) -> (u64, u64) {
    if is_reply {
        (sheet.dc, sheet.tc)
    } else {
        (sheet.tc, sheet.dc)
    }
}

/// A message's number, at its sender.
fn draw_number<W: io::Write>(text: &mut Text<'_, W>, sheet: Sheet, message: &Message) {
    let y = if message.is_reply {
        sheet.dc.saturating_add(13)
    } else {
        sheet.tc.saturating_sub(5)
    };
    put_numbered(
        text,
        "number",
        sheet.at(message.sent, y),
        "",
        message.number,
    );
}

/// A message that was never delivered ends in a cross.
fn draw_lost<W: io::Write>(
    text: &mut Text<'_, W>,
    deliveries: &[Delivery],
    sheet: Sheet,
    message: &Message,
) {
    if is_delivered(deliveries, message, sheet.end) {
        return;
    }
    let (from, _) = ends_of(sheet, message.is_reply);
    let y = if message.is_reply {
        from.saturating_sub(14)
    } else {
        from.saturating_add(14)
    };
    let end = At {
        x: sheet.x(message.sent).saturating_add(4),
        y,
    };
    put_line(text, "lost", sheet.at(message.sent, from), end);
    put_cross(text, "cross", end, 4);
}

fn is_delivered(deliveries: &[Delivery], message: &Message, end: usize) -> bool {
    for delivery in deliveries {
        let same = delivery.is_reply == message.is_reply && delivery.sent == message.sent;
        if same && delivery.step < end {
            return true;
        }
    }
    false
}

fn draw_delivery<W: io::Write>(text: &mut Text<'_, W>, sheet: Sheet, delivery: &Delivery) {
    let (from, to) = ends_of(sheet, delivery.is_reply);
    let start = sheet.at(delivery.sent, from);
    let end = sheet.at(delivery.step, to);
    put_line(text, class_of(delivery.fate), start, end);
    match delivery.fate {
        Fate::Missed => put_cross(text, "cross", end, 5),
        Fate::Late | Fate::LateAgain => draw_late(text, delivery.is_reply, end),
        Fate::First | Fate::Again => {}
    }
}

fn class_of(fate: Fate) -> &'static str {
    match fate {
        Fate::First => "message",
        Fate::Again => "again",
        Fate::Late => "late",
        Fate::LateAgain => "lateagain",
        Fate::Missed => "lost",
    }
}

fn draw_late<W: io::Write>(text: &mut Text<'_, W>, is_reply: bool, end: At) {
    let y = if is_reply {
        end.y.saturating_sub(5)
    } else {
        end.y.saturating_add(26)
    };
    put_label(text, "number", At { x: end.x, y }, "L");
}
