//! The names that begin lines, by what follows them.
ghost use Rattle.std.specs.Prelude.{◌≡◌, option_map};
ghost use Rattle.shell_scripts.specs.Words.{label_in, number_in, written_in};
ghost use Rattle.shell_scripts.specs.Script.{bare, with_label, call_named, with_number, treating_leaf, leaf_call_named, with_key, with_savepoint, kind_with_value, meaning};

use crate::label::Label;
use crate::line::{Call, Kind, LeafCall, Line, Look, Part, Written};
use crate::words::{number_of, written};
use node_world::Event;

/// A line of one word.
pub fn bare<'a>(name: &[u8]) -> Option<Line<'a>>
    ensures { option_map meaning result ≡ bare name.now }
{
    if name == b"settle".as_slice() {
        Some(Line::Settle(None))
    } else if name == b"force".as_slice() {
        Some(Line::Step(Event::Force))
    } else if name == b"tend".as_slice() {
        Some(Line::Step(Event::Tend))
    } else if name == b"checkpoint".as_slice() {
        Some(Line::Step(Event::Checkpoint))
    } else if name == b"tell".as_slice() {
        Some(Line::Step(Event::Tell))
    } else if name == b"connect".as_slice() {
        Some(Line::Step(Event::Reconnect))
    } else if name == b"recover".as_slice() {
        Some(Line::Step(Event::Recover))
    } else if name == b"table".as_slice() {
        Some(Line::Table)
    } else if name == b"log".as_slice() {
        Some(Line::Show(Part::Log))
    } else if name == b"leaves".as_slice() {
        Some(Line::Show(Part::Leaves))
    } else if name == b"forget".as_slice() {
        Some(Line::Forget)
    } else {
        None
    }
}

/// A line of a name and a label.
pub fn with_label<'a>(name: &[u8], word: &[u8]) -> Option<Line<'a>>
    ensures { option_map meaning result ≡ with_label name.now (label_in word.now) }
{
    let label = Label::new(word)?;
    if name == b"begin".as_slice() {
        return Some(Line::Begin(label));
    }
    let call = call_named(name)?;
    Some(Line::Call { label, call })
}

/// What happens to the transaction of a line of two words.
fn call_named(name: &[u8]) -> Option<Call>
    ensures { result ≡ call_named name.now }
{
    if name == b"save".as_slice() {
        Some(Call::Save)
    } else if name == b"rollback".as_slice() {
        Some(Call::Rollback)
    } else if name == b"commit".as_slice() {
        Some(Call::Commit)
    } else if name == b"send".as_slice() {
        Some(Call::Send)
    } else if name == b"undo".as_slice() {
        Some(Call::Undo)
    } else {
        None
    }
}

/// A line of a name and a number.
pub fn with_number<'a>(name: &[u8], word: &[u8]) -> Option<Line<'a>>
    ensures { option_map meaning result ≡ with_number name.now (number_in word.now) }
{
    let number = number_of(word)?;
    if name == b"low".as_slice() {
        Some(Line::Step(Event::LowWater { low: number }))
    } else if name == b"req".as_slice() {
        Some(Line::Step(Event::Request { number }))
    } else if name == b"rep".as_slice() {
        Some(Line::Step(Event::Reply { number }))
    } else if name == b"settle".as_slice() {
        Some(Line::Settle(Some(number)))
    } else {
        None
    }
}

/// A line of a name and the key of a leaf.
pub fn treating_leaf<'a>(name: &[u8], word: &'a [u8]) -> Option<Line<'a>>
    ensures { option_map meaning result ≡ treating_leaf name.now (written_in word.now) }
{
    let key = written(word)?;
    let call = leaf_call_named(name)?;
    Some(Line::Leaf { call, key })
}

/// What happens to the leaf of a line of two words.
fn leaf_call_named(name: &[u8]) -> Option<LeafCall>
    ensures { result ≡ leaf_call_named name.now }
{
    if name == b"split".as_slice() {
        Some(LeafCall::Split)
    } else if name == b"merge".as_slice() {
        Some(LeafCall::Merge)
    } else if name == b"flush".as_slice() {
        Some(LeafCall::Flush)
    } else {
        None
    }
}

/// A line of a name, a label and a key.
pub fn with_key<'a>(name: &[u8], label: &[u8], word: &'a [u8]) -> Option<Line<'a>>
    ensures { option_map meaning result ≡ with_key name.now (label_in label.now) (written_in word.now) }
{
    let label = Label::new(label)?;
    let key = written(word)?;
    if name == b"get".as_slice() {
        Some(Line::Get { label, key })
    } else if name == b"delete".as_slice() {
        Some(Line::Write {
            label,
            kind: Kind::Delete,
            key,
            value: Written::Text(&word[..0]),
        })
    } else if name == b"prefix".as_slice() {
        Some(Line::Prefix {
            label,
            text: key,
            look: Look::All,
        })
    } else {
        None
    }
}

/// A line of a name, a label and a savepoint.
pub fn with_savepoint<'a>(name: &[u8], label: &[u8], word: &[u8]) -> Option<Line<'a>>
    ensures { option_map meaning result ≡ with_savepoint name.now (label_in label.now) (number_in word.now) }
{
    let label = Label::new(label)?;
    let savepoint = number_of(word)?;
    if name == b"back".as_slice() {
        let call = Call::Back { savepoint };
        Some(Line::Call { label, call })
    } else {
        None
    }
}

/// What a write of four words does.
pub fn kind_with_value(name: &[u8]) -> Option<Kind>
    ensures { result ≡ kind_with_value name.now }
{
    if name == b"insert".as_slice() {
        Some(Kind::Insert)
    } else if name == b"update".as_slice() {
        Some(Kind::Update)
    } else if name == b"upsert".as_slice() {
        Some(Kind::Upsert)
    } else {
        None
    }
}
