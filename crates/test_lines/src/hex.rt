//! Bytes as hexadecimal text.
use crate::reading::OUTSIDE;
use record_key::Refusal;
use std::alloc::Global;
use std::fmt::Write;

/// The bytes of two lower case digits each. Spaces are skipped.
pub fn bytes_of(alloc: Global, text: &str) -> Result<Vec<u8>, Refusal> {
    let mut bytes = Vec::new(alloc);
    let mut high = None;
    for byte in text.as_bytes() {
        if *byte != b' ' {
            let low = digit_of(*byte)?;
            match high {
                None => high = Some(low),
                Some(first) => {
                    bytes.push(joined(first, low))?;
                    high = None;
                }
            }
        }
    }
    if high.is_some() {
        return Err(OUTSIDE);
    }
    Ok(bytes)
}

fn digit_of(byte: u8) -> Result<u8, Refusal> {
    match byte {
        b'0'..=b'9' => Ok(byte - b'0'),
        b'a'..=b'f' => Ok(byte - b'a' + 10),
        _ => Err(OUTSIDE),
    }
}

fn joined(high: u8, low: u8) -> u8 {
    high.wrapping_mul(16) | low
}

/// Appends two digits for each byte.
pub fn put_hex(out: &mut String, bytes: &[u8]) -> Result<(), Refusal> {
    for byte in bytes {
        write!(out, "{byte:02x}")?;
    }
    Ok(())
}
