//! The records, and which of them a call is for.
ghost use Rattle.std.specs.Prelude.{◌<◌};

use record_key::{Key, Op, Refusal, Value};

/// The step of the splitmix64 generator (Steele, Lea, Flood, 2014).
fn mix(number: u64) -> u64 {
    let x = number.wrapping_add(0x9e37_79b9_7f4a_7c15);
    let x = (x ^ (x >> 30)).wrapping_mul(0xbf58_476d_1ce4_e5b9);
    let x = (x ^ (x >> 27)).wrapping_mul(0x94d0_49bb_1331_11eb);
    x ^ (x >> 31)
}

/// One of so many records, for the call of this number.
pub fn drawn(call: u64, records: u64) -> u64
    requires some { 0 < records }
{
    mix(call) % records
}

/// The key of a record, 11 bytes: `k` and ten characters, each one of 64. The keys of records in turn lie scattered.
pub fn key_of(record: u64) -> Result<Key, Refusal> {
    let mut text = [b'k'; 11];
    let mut rest = mix(record);
    for place in 1..11 {
        text[place] = b'0' + (rest % 64) as u8;
        rest /= 64;
    }
    Key::new(&text)
}

/// Puts a record with a value of 64 bytes, whether it is there or not.
pub fn upsert_of(record: u64) -> Result<Op, Refusal> {
    Ok(Op::Upsert(key_of(record)?, Value::new(&[b'v'; 64])?))
}
