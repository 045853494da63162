//! Operations of keys and values that C gives. Each refuses an empty key before one that is too long, and that before a
//! value that is.
ghost use Rattle.std.specs.Prelude.{◌≡◌, ◌<◌, ◌≤◌, length, Ok, Err};
ghost use Rattle.record_key.specs.declared.op.Op.TheVariants as op;
ghost use Rattle.record_key.specs.declared.refusal.Refusal.TheVariants.{EmptyKey, TooLong};
ghost use Rattle.jakumshe.specs.Calls.{end_of};

use record_key::{Key, Op, Refusal, Value};

pub fn insert(key: &[u8], value: &[u8]) -> Result<Op, Refusal>
    ensures op { 0 < length key.now → length key.now ≤ 32 → length value.now ≤ 120
        → result ≡ Ok (op.Insert key.now value.now) }
    ensures empty { length key.now ≡ 0 → result ≡ Err EmptyKey }
    ensures long_key { 32 < length key.now → result ≡ Err TooLong }
    ensures long_value { 0 < length key.now → 120 < length value.now → result ≡ Err TooLong }
{
    Ok(Op::Insert(Key::new(key)?, Value::new(value)?))
}

pub fn update(key: &[u8], value: &[u8]) -> Result<Op, Refusal>
    ensures op { 0 < length key.now → length key.now ≤ 32 → length value.now ≤ 120
        → result ≡ Ok (op.Update key.now value.now) }
    ensures empty { length key.now ≡ 0 → result ≡ Err EmptyKey }
    ensures long_key { 32 < length key.now → result ≡ Err TooLong }
    ensures long_value { 0 < length key.now → 120 < length value.now → result ≡ Err TooLong }
{
    Ok(Op::Update(Key::new(key)?, Value::new(value)?))
}

pub fn upsert(key: &[u8], value: &[u8]) -> Result<Op, Refusal>
    ensures op { 0 < length key.now → length key.now ≤ 32 → length value.now ≤ 120
        → result ≡ Ok (op.Upsert key.now value.now) }
    ensures empty { length key.now ≡ 0 → result ≡ Err EmptyKey }
    ensures long_key { 32 < length key.now → result ≡ Err TooLong }
    ensures long_value { 0 < length key.now → 120 < length value.now → result ≡ Err TooLong }
{
    Ok(Op::Upsert(Key::new(key)?, Value::new(value)?))
}

pub fn delete(key: &[u8]) -> Result<Op, Refusal>
    ensures op { 0 < length key.now → length key.now ≤ 32 → result ≡ Ok (op.Delete key.now) }
    ensures empty { length key.now ≡ 0 → result ≡ Err EmptyKey }
    ensures long_key { 32 < length key.now → result ≡ Err TooLong }
{
    Ok(Op::Delete(Key::new(key)?))
}

pub fn add(key: &[u8], amount: u64) -> Result<Op, Refusal>
    ensures op { 0 < length key.now → length key.now ≤ 32 → result ≡ Ok (op.Add key.now amount) }
    ensures empty { length key.now ≡ 0 → result ≡ Err EmptyKey }
    ensures long_key { 32 < length key.now → result ≡ Err TooLong }
{
    Ok(Op::Add(Key::new(key)?, amount))
}

/// The ends of a range; no upper end where there are no bytes.
pub fn range(low: &[u8], high: &[u8]) -> Result<(Key, Option<Key>), Refusal>
    ensures ends { 0 < length low.now → length low.now ≤ 32 → length high.now ≤ 32
        → result ≡ Ok (low.now, end_of high.now) }
    ensures empty { length low.now ≡ 0 → result ≡ Err EmptyKey }
    ensures long_low { 32 < length low.now → result ≡ Err TooLong }
    ensures long_high { 0 < length low.now → 32 < length high.now → result ≡ Err TooLong }
{
    let low = Key::new(low)?;
    if high.is_empty() {
        return Ok((low, None));
    }
    Ok((low, Some(Key::new(high)?)))
}
