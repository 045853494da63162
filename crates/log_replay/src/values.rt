//! The value at each key.
ghost use Rattle.std.specs.Prelude.{◌≡◌, IfErr, OnOk, OnErr, List, ℕ, Some};
ghost use Rattle.std.specs.BTreeMap.{IsUnchanged};
ghost use Rattle.record_key.specs.Table.{key_of};
ghost use Rattle.history.specs.Values.{value_with};
ghost use Rattle.log_replay.specs.Kept.{value_held, PutsAt};

use crate::effects::value_after;
use record_key::{Key, Op, Refusal, Value};
use std::collections::BTreeMap;

/// Does the operation, where this is the value at its key. Refused NoMemory, and unchanged then.
pub fn apply(values: &mut BTreeMap<Key, Value>, op: &Op, old: Option<Value>) -> Result<(), Refusal>
    requires old { old ≡ value_held values.old (key_of op.now) }
    ensures applied { OnOk result ((k : List ℕ) →
        value_held values.new k ≡ value_with k (Some op.now) (value_held values.old k)) }
    ensures refused { IfErr result (λ refusal. refusal ≡ Refusal.NoMemory) }
    ensures unchanged { OnErr result (IsUnchanged values.old values.new) }
{
    put(values, op.key(), value_after(op, old))?;
    Ok(())
}

/// Puts this at the key. Refused NoMemory, and unchanged then.
fn put(values: &mut BTreeMap<Key, Value>, key: &Key, value: Option<Value>) -> Result<(), Refusal>
    ensures put { OnOk result (PutsAt values.old values.new key.now value) }
    ensures refused { IfErr result (λ refusal. refusal ≡ Refusal.NoMemory) }
    ensures unchanged { OnErr result (IsUnchanged values.old values.new) }
{
    match value {
        Some(value) => {
            values.insert(key.copied(), value)?;
        }
        None => {
            values.remove(key);
        }
    }
    Ok(())
}

/// A copy of the value at the key.
pub fn value_at(values: &BTreeMap<Key, Value>, key: &Key) -> Option<Value>
    ensures { result ≡ value_held values.now key.now }
{
    match values.get(key) {
        Some(value) => Some(value.copied()),
        None => None,
    }
}
