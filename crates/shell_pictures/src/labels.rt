//! Texts of an SVG file.
use crate::sheet::At;
use shell_texts::Text;
use std::io;

/// A text whose beginning, middle or end stands at a place, as its class says.
pub fn put_label<W: io::Write>(text: &mut Text<'_, W>, class: &str, at: At, words: &str) {
    begin_label(text, class, at);
    text.say(words);
    end_label(text);
}

/// The same of a text and a number.
pub fn put_numbered<W: io::Write>(
    text: &mut Text<'_, W>,
    class: &str,
    at: At,
    words: &str,
    number: u64,
) {
    begin_label(text, class, at);
    text.say(words).number(number);
    end_label(text);
}

pub fn begin_label<W: io::Write>(text: &mut Text<'_, W>, class: &str, at: At) {
    text.say("<text class=\"")
        .say(class)
        .say("\" x=\"")
        .number(at.x)
        .say("\" y=\"")
        .number(at.y)
        .say("\">");
}

/// A text that runs upwards from a place.
pub fn begin_upright<W: io::Write>(text: &mut Text<'_, W>, class: &str, at: At) {
    text.say("<text class=\"")
        .say(class)
        .say("\" transform=\"translate(")
        .place(at.x, at.y)
        .say(") rotate(-90)\">");
}

pub fn end_label<W: io::Write>(text: &mut Text<'_, W>) {
    text.say("</text>\n");
}

/// Bytes of a script, so many at most, with what XML reads as its own written out.
pub fn put_clipped<W: io::Write>(text: &mut Text<'_, W>, bytes: &[u8], most: usize) {
    for byte in &bytes[..most.min(bytes.len())] {
        put_escaped(text, *byte);
    }
    if bytes.len() > most {
        text.bytes(b"..");
    }
}

fn put_escaped<W: io::Write>(text: &mut Text<'_, W>, byte: u8) {
    match byte {
        b'<' => text.bytes(b"&lt;"),
        b'>' => text.bytes(b"&gt;"),
        b'&' => text.bytes(b"&amp;"),
        b'"' => text.bytes(b"&quot;"),
        b' '..=b'~' => text.bytes(&[byte]),
        _ => text.bytes(b"?"),
    };
}
