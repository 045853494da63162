//! Shapes and texts of an SVG file.
use crate::sheet::At;
use shell_texts::Text;
use std::io;

pub fn put_line<W: io::Write>(text: &mut Text<'_, W>, class: &str, from: At, to: At) {
    text.say("<path class=\"")
        .say(class)
        .say("\" d=\"M")
        .place(from.x, from.y)
        .say("L")
        .place(to.x, to.y)
        .say("\"/>\n");
}

/// A line that is bent towards a place.
pub fn put_arc<W: io::Write>(text: &mut Text<'_, W>, class: &str, from: At, by: At, to: At) {
    text.say("<path class=\"")
        .say(class)
        .say("\" d=\"M")
        .place(from.x, from.y)
        .say("Q")
        .place(by.x, by.y)
        .say(" ")
        .place(to.x, to.y)
        .say("\"/>\n");
}

/// A box round a place.
pub fn put_box<W: io::Write>(text: &mut Text<'_, W>, class: &str, at: At, width: u64, height: u64) {
    text.say("<rect class=\"")
        .say(class)
        .say("\" x=\"")
        .number(at.x.saturating_sub(width / 2))
        .say("\" y=\"")
        .number(at.y.saturating_sub(height / 2))
        .say("\" width=\"")
        .number(width)
        .say("\" height=\"")
        .number(height)
        .say("\"/>\n");
}

pub fn put_circle<W: io::Write>(text: &mut Text<'_, W>, class: &str, at: At, radius: u64) {
    text.say("<circle class=\"")
        .say(class)
        .say("\" cx=\"")
        .number(at.x)
        .say("\" cy=\"")
        .number(at.y)
        .say("\" r=\"")
        .number(radius)
        .say("\"/>\n");
}

/// Two strokes that cross at a place.
pub fn put_cross<W: io::Write>(text: &mut Text<'_, W>, class: &str, at: At, size: u64) {
    let low = At {
        x: at.x.saturating_sub(size),
        y: at.y.saturating_sub(size),
    };
    let high = At {
        x: at.x.saturating_add(size),
        y: at.y.saturating_add(size),
    };
    put_line(text, class, low, high);
    put_line(
        text,
        class,
        At {
            x: low.x,
            y: high.y,
        },
        At {
            x: high.x,
            y: low.y,
        },
    );
}
