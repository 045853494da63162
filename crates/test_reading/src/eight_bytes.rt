//! Numbers as values of eight bytes, the greatest first, in the text that the shell gives them.
use std::alloc::{AllocError, Global};

/// The number that the value is, if it has eight bytes.
pub fn number_of(text: &str) -> Option<u64> {
    match text.strip_prefix('#') {
        Some(digits) if digits.len() == 16 => u64::from_str_radix(digits, 16).ok(),
        Some(_) => None,
        None => {
            let bytes = <[u8; 8]>::try_from(text.as_bytes()).ok()?;
            Some(u64::from_be_bytes(bytes))
        }
    }
}

/// The text of the value: itself where it has letters and digits alone, else its digits.
pub fn text_of(alloc: Global, number: u64) -> Result<String, AllocError> {
    let bytes = number.to_be_bytes();
    if !is_plain(&bytes) {
        return format!(in alloc; "#{number:016x}");
    }
    let mut text = String::new(alloc);
    for byte in bytes {
        text.push(char::from(byte))?;
    }
    Ok(text)
}

fn is_plain(bytes: &[u8]) -> bool {
    bytes.iter().all(|byte| byte.is_ascii_alphanumeric())
}
