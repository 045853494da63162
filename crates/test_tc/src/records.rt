//! The text of records.
use crate::numbers::Numbers;
use history::Record;
use test_calls::Text;

pub fn put_record(text: &mut Text, numbers: Numbers, item: Option<Record>) {
    match item {
        None => text.put("none"),
        Some(Record::Session) => text.put("session"),
        Some(Record::Begin) => text.put("begin"),
        Some(Record::Op { txn, prev, op }) => {
            numbers.put(text, "op", txn);
            numbers.put(text, "prev", prev);
            text.put_op(&op);
        }
        Some(Record::Answer { of, answer }) => {
            numbers.put(text, "answer", of);
            text.put_answer(&answer);
        }
        Some(
            Record::Comp {
                txn,
                undoes,
                next,
                inverse,
            },
        ) => {
            numbers.put(text, "comp", txn);
            numbers.put(text, "undoes", undoes);
            numbers.put(text, "next", next);
            match inverse {
                Some(op) => text.put_op(&op),
                None => text.put("none"),
            }
        }
        Some(Record::Commit { txn }) => numbers.put(text, "commit", txn),
        Some(Record::End { txn }) => numbers.put(text, "end", txn),
        Some(Record::Checkpoint { low }) => numbers.put(text, "checkpoint", low),
    }
}
