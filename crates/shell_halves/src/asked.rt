//! What a line of a script asks of the transaction component.
ghost use Rattle.std.specs.Prelude.{◌≡◌, true, IfOk, IfSome};
ghost use Rattle.node_sides.specs.node_laws.specs.Halves.{of_tc};

use node_sides::node_laws::Event;
use record_key::{Key, Op, Refusal};
use shell_scripts::row_ranges::beginning_end;
use shell_scripts::{Labels, Line, Look, Written, event_called, op_of};

/// The event that a transaction's line is, by the transactions that the labels stand for. None where it isn't one.
pub fn event_of(line: &Line<'_>, labels: &Labels) -> Result<Option<Event>, Refusal>
    ensures { IfOk result (λ event. IfSome event (λ event. of_tc event ≡ true)) }
{
    match line {
        Line::Begin(_) => Ok(Some(Event::Begin)),
        Line::Write {
            label,
            kind,
            key,
            value,
        } => {
            let op = op_of(*kind, key.as_bytes(), value.as_bytes())?;
            Ok(Some(act(labels.number(label), op)))
        }
        Line::Add { label, key, amount } => {
            let key = Key::new(key.as_bytes())?;
            Ok(Some(act(labels.number(label), Op::Add(key, *amount))))
        }
        Line::Get { label, key } => {
            let key = Key::new(key.as_bytes())?;
            let txn = labels.number(label);
            Ok(Some(Event::Get { txn, key }))
        }
        Line::Scan {
            label,
            low,
            high,
            ..
        } => {
            let low = Key::new(low.as_bytes())?;
            let high = key_if(high)?;
            let txn = labels.number(label);
            Ok(Some(Event::Scan { txn, low, high }))
        }
        Line::Prefix { label, text, .. } => {
            let low = Key::new(text.as_bytes())?;
            let high = beginning_end(&low);
            let txn = labels.number(label);
            Ok(Some(Event::Scan { txn, low, high }))
        }
        Line::Call { label, call } => Ok(Some(event_called(*call, labels.number(label)))),
        _ => Ok(None),
    }
}

fn act(txn: u64, op: Op) -> Event
    ensures { of_tc result ≡ true }
{
    Event::Act { txn, op }
}

fn key_if(text: &Option<Written<'_>>) -> Result<Option<Key>, Refusal> {
    match text {
        Some(text) => Ok(Some(Key::new(text.as_bytes())?)),
        None => Ok(None),
    }
}

/// How the rows are told that a line asks for.
pub fn look_of(line: &Line<'_>) -> Look {
    match line {
        Line::Scan { look, .. } | Line::Prefix { look, .. } => *look,
        _ => Look::All,
    }
}
