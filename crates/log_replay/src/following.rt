//! What a record changes of what is kept. That is lent apart, since it runs ahead of the records until one is taken.
ghost use Rattle.std.specs.Prelude.{◌≡◌, ◌+◌, ◌∷◌, ℕ, List, Some, length, IfErr, OnOk, OnErr};
ghost use Rattle.history.specs.Values.{value_on, value_with};
ghost use Rattle.log_replay.specs.Kept.{Follows, due_asked, due_held, due_left, value_held};

use crate::effects::{answer_at, request};
use crate::values::{apply, value_at};
use ghost_list::GhostList;
use history::Record;
use record_key::{Answer, Key, Op, Refusal, Value};
use std::collections::BTreeMap;

/// Keeps what the record, of this number, changes. Refused NoMemory, and keeps the same then.
pub fn follow(
    values: &mut BTreeMap<Key, Value>,
    dues: &mut BTreeMap<u64, Answer>,
    taken: &GhostList<Record>,
    next: &Record,
    number: u64,
) -> Result<(), Refusal>
    requires kept { Follows taken.now.items values.old dues.old }
    requires number { number ≡ length taken.now.items + 1 }
    ensures kept { OnOk result (Follows (next.now ∷ taken.now.items) values.new dues.new) }
    ensures unchanged { OnErr result (Follows taken.now.items values.new dues.new) }
    ensures refused { IfErr result (λ refusal. refusal ≡ Refusal.NoMemory) }
{
    if let Record::Answer { of, .. } = next {
        dues.remove(of);
        return Ok(());
    }
    match request(next) {
        Some(op) => ask(values, dues, taken, op, number),
        None => Ok(()),
    }
}

/// Does the operation, which the record of this number asks for, and keeps what that gets.
fn ask(
    values: &mut BTreeMap<Key, Value>,
    dues: &mut BTreeMap<u64, Answer>,
    taken: &GhostList<Record>,
    op: &Op,
    number: u64,
) -> Result<(), Refusal>
    requires kept { Follows taken.now.items values.old dues.old }
    requires number { number ≡ length taken.now.items + 1 }
    ensures values { OnOk result ((k : List ℕ) →
        value_held values.new k ≡ value_with k (Some op.now) (value_on k taken.now.items)) }
    ensures dues { OnOk result ((n : ℕ) → due_held dues.new n
        ≡ due_asked taken.now.items (Some op.now) n (due_left taken.now.items n)) }
    ensures unchanged { OnErr result (Follows taken.now.items values.new dues.new) }
    ensures refused { IfErr result (λ refusal. refusal ≡ Refusal.NoMemory) }
{
    let old = value_at(values, op.key());
    dues.insert(number, answer_at(op, &old))?;
    if let Err(refusal) = apply(values, op, old) {
        dues.remove(&number);
        return Err(refusal);
    }
    Ok(())
}
