//! A digest of rows.
use crate::draws::mix;
use record_key::{Key, Value};

/// A number made of all rows, whatever their order: of each the hash FNV-1a of 64 bits, from a start of its own.
pub fn digest(rows: &[(Key, Value)]) -> u64 {
    let mut sum = 0u64;
    for (key, value) in rows {
        let hash = fnv(0x1465_0fb0_739d_0383, key.as_bytes());
        sum = sum.wrapping_add(mix(fnv(hash, value.as_bytes())));
    }
    sum
}

fn fnv(hash: u64, bytes: &[u8]) -> u64 {
    let mut hash = hash;
    for byte in bytes {
        hash = (hash ^ u64::from(*byte)).wrapping_mul(0x100_0000_01b3);
    }
    hash
}
