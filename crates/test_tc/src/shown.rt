//! The text of what a transaction component answers.
use crate::numbers::Numbers;
use codec::Request;
use tc_core::{OpenTxn, Phase, RecoverStep, Told, UndoStep};
use test_calls::Text;

/// `committed TXN ..`, nothing where there is none.
pub fn put_committed(text: &mut Text, numbers: Numbers, txns: &[u64]) {
    if !txns.is_empty() {
        text.put("committed");
    }
    for txn in txns {
        numbers.put_plain(text, *txn);
    }
}

pub fn put_request(text: &mut Text, numbers: Numbers, request: &Request) {
    match request {
        Request::Connect { session, end } => put_two(text, numbers, "connect", *session, *end),
        Request::Perform {
            session,
            number,
            stable,
            op,
        } => {
            put_two(text, numbers, "perform", *session, *number);
            numbers.put_plain(text, *stable);
            text.put_op(op);
        }
        Request::Get { session, read, key } => {
            numbers.put(text, "get", *session);
            text.put_number(*read);
            text.put_bytes(key.as_bytes());
        }
        Request::Scan {
            session,
            read,
            low,
            high,
        } => {
            numbers.put(text, "scan", *session);
            text.put_number(*read);
            text.put_bytes(low.as_bytes());
            match high {
                Some(high) => text.put_bytes(high.as_bytes()),
                None => text.put("*"),
            }
        }
        Request::LowWater { session, low } => put_two(text, numbers, "low", *session, *low),
        Request::Checkpoint { session, low } => {
            put_two(text, numbers, "checkpoint", *session, *low);
        }
        Request::RedoEnd { session } => numbers.put(text, "redoend", *session),
        Request::StableEnd { session, stable } => {
            put_two(text, numbers, "stableend", *session, *stable);
        }
    }
}

/// A request's name, its session and another number.
fn put_two(text: &mut Text, numbers: Numbers, name: &str, session: u64, other: u64) {
    numbers.put(text, name, session);
    numbers.put_plain(text, other);
}

pub fn put_told(text: &mut Text, numbers: Numbers, told: &Told) {
    match told {
        Told::Nothing => text.put("nothing"),
        Told::Connected(session) => numbers.put(text, "connected", *session),
        Told::RedoEnded(session) => numbers.put(text, "redoended", *session),
        Told::Answered { txn, answer } => {
            numbers.put(text, "answer", *txn);
            text.put_answer(answer);
        }
        Told::Row { txn, value } => {
            numbers.put(text, "row", *txn);
            text.put_found(value.as_ref());
        }
        Told::Rows { txn, rows } => {
            numbers.put(text, "rows", *txn);
            let mut reader = rows.lent();
            for _ in 0..rows.len() {
                if let Some((key, value)) = reader.next() {
                    text.put_row(&key, &value);
                }
            }
        }
        Told::Undone(number) => numbers.put(text, "undone", *number),
        Told::CheckpointLogged(number) => numbers.put(text, "checkpoint", *number),
    }
}

pub fn put_step(text: &mut Text, numbers: Numbers, step: &RecoverStep) {
    match step {
        RecoverStep::Nothing => text.put("nothing"),
        RecoverStep::Sends(request) => put_request(text, numbers, request),
        RecoverStep::Compensated(number) => numbers.put(text, "comp", *number),
        RecoverStep::Lost(txn) => numbers.put(text, "lost", *txn),
    }
}

pub fn put_undone(text: &mut Text, numbers: Numbers, step: UndoStep) {
    match step {
        UndoStep::Idle => text.put("idle"),
        UndoStep::Compensated(number) => numbers.put(text, "comp", number),
        UndoStep::RolledBack(txn) => numbers.put(text, "rolledback", txn),
        UndoStep::Back { txn, savepoint } => {
            numbers.put(text, "back", txn);
            text.put_number(savepoint);
        }
    }
}

pub fn put_phase(text: &mut Text, numbers: Numbers, phase: Phase) {
    match phase {
        Phase::Unconnected => text.put("unconnected"),
        Phase::Connecting => text.put("connecting"),
        Phase::Redoing { next, ending } => {
            numbers.put(text, "redoing", next);
            if ending {
                text.put("ending");
            }
        }
        Phase::Undoing { waiting } => {
            text.put("undoing");
            if let Some(number) = waiting {
                numbers.put_plain(text, number);
            }
        }
        Phase::Running => text.put("running"),
    }
}

/// `TXN last N undo N saves N`, and what it waits for.
pub fn put_open(text: &mut Text, numbers: Numbers, txn: Option<OpenTxn>) {
    let Some(txn) = txn else {
        text.put("none");
        return;
    };
    numbers.put_plain(text, txn.txn);
    numbers.put(text, "last", txn.last);
    numbers.put(text, "undo", txn.undo);
    text.put("saves");
    text.put_number(txn.saves.len() as u64);
    if let Some(number) = txn.waiting {
        numbers.put(text, "waiting", number);
    }
    if let Some(read) = &txn.reading {
        text.put("reading");
        text.put_number(read.number);
    }
    if txn.rolling.is_some() {
        text.put("rolling");
    }
}
