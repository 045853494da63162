//! The grammar of a line: one place for each number of words.
ghost use Rattle.std.specs.Prelude.{◌≡◌, ◌∷◌, option_map};
ghost use Rattle.shell_scripts.specs.Words.{words_of, label_in, written_in, amount_written, end_in};
ghost use Rattle.shell_scripts.specs.Script.{command_of, unlabelled, of_three, of_four, of_five, of_six, write_of, add_of, scan_of, prefix_of, meaning};

use crate::components::{crash, with_component};
use crate::failures::with_device;
use crate::label::Label;
use crate::line::{Kind, Line, Look};
use crate::looking::{limit_of, look_of};
use crate::names::{
    bare, kind_with_value, treating_leaf, with_key, with_label, with_number, with_savepoint,
};
use crate::script::cut_at;
use crate::words::{amount_of, end_of, written};

/// The line that these bytes are, if they are in the grammar.
pub fn parse(line: &[u8]) -> Option<Line<'_>>
    ensures { option_map meaning result ≡ command_of (words_of line.now) }
{
    let (name, rest) = cut_at(line, b' ');
    match rest {
        None => bare(name),
        Some(rest) => parse_pair(name, rest),
    }
}

/// A line of two words or more, of which these are left.
fn parse_pair<'a>(name: &[u8], rest: &'a [u8]) -> Option<Line<'a>>
    ensures { option_map meaning result ≡ command_of (name.now ∷ words_of rest.now) }
{
    let (word, rest) = cut_at(rest, b' ');
    match rest {
        None => match with_label(name, word) {
            Some(line) => Some(line),
            None => parse_unlabelled(name, word),
        },
        Some(rest) => parse_keyed(name, word, rest),
    }
}

/// A line of two words, the second a number, the key of a leaf or a component.
fn parse_unlabelled<'a>(name: &[u8], word: &'a [u8]) -> Option<Line<'a>>
    ensures { option_map meaning result ≡ unlabelled name.now word.now }
{
    if let Some(line) = with_number(name, word) {
        return Some(line);
    }
    match treating_leaf(name, word) {
        Some(line) => Some(line),
        None => with_component(name, word),
    }
}

/// A line of three words or more.
fn parse_keyed<'a>(name: &[u8], label: &[u8], rest: &'a [u8]) -> Option<Line<'a>>
    ensures { option_map meaning result ≡ command_of (name.now ∷ label.now ∷ words_of rest.now) }
{
    let (word, rest) = cut_at(rest, b' ');
    match rest {
        None => parse_three(name, label, word),
        Some(rest) => parse_row(name, label, word, rest),
    }
}

fn parse_three<'a>(name: &[u8], first: &[u8], second: &'a [u8]) -> Option<Line<'a>>
    ensures { option_map meaning result ≡ of_three name.now first.now second.now }
{
    if let Some(line) = with_key(name, first, second) {
        return Some(line);
    }
    match with_savepoint(name, first, second) {
        Some(line) => Some(line),
        None => with_device(name, first, second),
    }
}

/// A line of four words or more.
fn parse_row<'a>(name: &[u8], label: &[u8], key: &'a [u8], rest: &'a [u8]) -> Option<Line<'a>>
    ensures { option_map meaning result ≡ command_of (name.now ∷ label.now ∷ key.now ∷ words_of rest.now) }
{
    let (last, rest) = cut_at(rest, b' ');
    match rest {
        None => parse_four(name, label, key, last),
        Some(rest) => parse_long(name, label, key, last, rest),
    }
}

/// A line of five words or more.
fn parse_long<'a>(
    name: &[u8],
    label: &[u8],
    key: &'a [u8],
    third: &'a [u8],
    rest: &'a [u8],
) -> Option<Line<'a>>
    ensures { option_map meaning result
        ≡ command_of (name.now ∷ label.now ∷ key.now ∷ third.now ∷ words_of rest.now) }
{
    let (fourth, rest) = cut_at(rest, b' ');
    match rest {
        None => parse_five(name, label, key, third, fourth),
        Some(rest) => parse_longer(name, label, key, third, fourth, rest),
    }
}

fn parse_five<'a>(
    name: &[u8],
    label: &[u8],
    key: &'a [u8],
    third: &'a [u8],
    fourth: &[u8],
) -> Option<Line<'a>>
    ensures { option_map meaning result ≡ of_five name.now label.now key.now third.now fourth.now }
{
    if name == b"scan".as_slice() {
        scan(label, key, third, look_of(fourth))
    } else if name == b"prefix".as_slice() {
        prefix(label, key, limit_of(third, fourth))
    } else {
        None
    }
}

/// A line of six words or more.
fn parse_longer<'a>(
    name: &[u8],
    label: &[u8],
    key: &'a [u8],
    third: &'a [u8],
    fourth: &[u8],
    rest: &[u8],
) -> Option<Line<'a>>
    ensures { option_map meaning result
        ≡ command_of (name.now ∷ label.now ∷ key.now ∷ third.now ∷ fourth.now ∷ words_of rest.now) }
{
    let (fifth, rest) = cut_at(rest, b' ');
    match rest {
        None => parse_six(name, label, key, third, fourth, fifth),
        Some(_) => None,
    }
}

fn parse_six<'a>(
    name: &[u8],
    label: &[u8],
    key: &'a [u8],
    third: &'a [u8],
    fourth: &[u8],
    fifth: &[u8],
) -> Option<Line<'a>>
    ensures { option_map meaning result
        ≡ of_six name.now label.now key.now third.now fourth.now fifth.now }
{
    if name == b"scan".as_slice() {
        scan(label, key, third, limit_of(fourth, fifth))
    } else {
        None
    }
}

fn parse_four<'a>(name: &[u8], first: &[u8], second: &'a [u8], last: &'a [u8]) -> Option<Line<'a>>
    ensures { option_map meaning result ≡ of_four name.now first.now second.now last.now }
{
    if name == b"scan".as_slice() {
        scan(first, second, last, Some(Look::All))
    } else if name == b"prefix".as_slice() {
        prefix(first, second, look_of(last))
    } else if name == b"crash".as_slice() {
        crash(first, second, last)
    } else if name == b"add".as_slice() {
        add(first, second, last)
    } else {
        write(kind_with_value(name), first, second, last)
    }
}

/// A write whose label, key and value are these words.
fn write<'a>(kind: Option<Kind>, label: &[u8], key: &'a [u8], value: &'a [u8]) -> Option<Line<'a>>
    ensures { option_map meaning result ≡ write_of kind (label_in label.now) (written_in key.now) (written_in value.now) }
{
    let kind = kind?;
    let label = Label::new(label)?;
    let key = written(key)?;
    let value = written(value)?;
    Some(Line::Write {
        label,
        kind,
        key,
        value,
    })
}

/// An increment whose label, key and amount are these words.
fn add<'a>(label: &[u8], key: &'a [u8], amount: &[u8]) -> Option<Line<'a>>
    ensures { option_map meaning result ≡ add_of (label_in label.now) (written_in key.now) (amount_written amount.now) }
{
    let label = Label::new(label)?;
    let key = written(key)?;
    let amount = amount_of(amount)?;
    Some(Line::Add { label, key, amount })
}

/// A scan whose label and keys are these words, and whose rows are told so.
fn scan<'a>(label: &[u8], low: &'a [u8], high: &'a [u8], look: Option<Look>) -> Option<Line<'a>>
    ensures { option_map meaning result
        ≡ scan_of (label_in label.now) (written_in low.now) (end_in high.now) look }
{
    let look = look?;
    let label = Label::new(label)?;
    let low = written(low)?;
    let high = end_of(high)?;
    Some(Line::Scan {
        label,
        low,
        high,
        look,
    })
}

/// A scan of the keys that begin with a word, and whose rows are told so.
fn prefix<'a>(label: &[u8], text: &'a [u8], look: Option<Look>) -> Option<Line<'a>>
    ensures { option_map meaning result ≡ prefix_of (label_in label.now) (written_in text.now) look }
{
    let look = look?;
    let label = Label::new(label)?;
    let text = written(text)?;
    Some(Line::Prefix { label, text, look })
}
