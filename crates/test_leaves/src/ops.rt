//! Operations that numbers choose.
use record_key::{Key, Op, Refusal, Value};
use test_calls::next;

/// One of 48 keys.
pub fn key_of(n: u64) -> Result<Key, Refusal> {
    Key::new(&[(n % 8) as u8, (n / 8 % 6) as u8])
}

/// One byte, or a number of eight.
fn value_of(n: u64) -> Result<Value, Refusal> {
    if n % 2 == 0 {
        Value::new(&(n / 2 % 1000).to_be_bytes())
    } else {
        Value::new(&[(n / 2 % 100) as u8])
    }
}

/// A small amount, or one that is taken away.
fn amount_of(n: u64) -> u64 {
    let amount = n / 2 % 1000;
    if n % 2 == 0 {
        amount
    } else {
        0u64.wrapping_sub(amount)
    }
}

/// The operation of a request. Of ten numbers the last five are on one key: it is made a number, which four Adds then
/// change.
pub fn op_of(number: u64) -> Result<Op, Refusal> {
    let draw = next(number.wrapping_mul(77));
    match number % 10 {
        5 => Ok(Op::Upsert(key_of(next(number / 10))?, value_of(draw / 65536 * 2)?)),
        6..=9 => Ok(Op::Add(key_of(next(number / 10))?, amount_of(draw / 65536))),
        _ => mixed_op(draw / 65536),
    }
}

/// An operation of each kind on one of the keys.
fn mixed_op(n: u64) -> Result<Op, Refusal> {
    let key = key_of(n)?;
    let rest = n / 48;
    Ok(match rest / 200 % 12 {
        0 => Op::Delete(key),
        1 => Op::Update(key, value_of(rest)?),
        2 | 3 => Op::Upsert(key, value_of(rest)?),
        4..=7 => Op::Insert(key, value_of(rest)?),
        _ => Op::Add(key, amount_of(rest)),
    })
}
