//! The words of a line: numbers, keys and values.
ghost use Rattle.std.specs.Prelude.{◌≡◌, ◌+◌, ◌*◌, ◌-◌, ◌^◌, ◌<◌, option_map, nat_lt, Some, None, if◌then◌else◌};
ghost use Rattle.std.specs.List.{list_all, list_any};
ghost use Rattle.std.specs.Char.{is_ascii_alphanumeric, is_ascii_uppercase};
ghost use Rattle.shell_scripts.specs.Words.{is_plain, text_in, end_in, value_behind, number_in, amount_written, written_in, bytes_in};
ghost use Rattle.shell_scripts.specs.Script.{written_bytes};

use crate::line::Written;
use codec::NUMBER_LIMIT;
use hex::decode_to_slice;
use itoa::Buffer;
use record_key::Value;

/// Every amount that is added is below this.
const AMOUNT_LIMIT: u128 = 1 << 64;

/// The most digits of a value that is written as bytes: two for each of the bytes of the longest one.
const MOST_DIGITS: usize = 2 * Value::MAX_LEN;

/// The number that the word is, in decimal and without leading zeros, if it is one below 2 to the power of 48.
pub fn number_of(word: &[u8]) -> Option<u64>
    ensures { result ≡ number_in word.now }
{
    let number = amount_of(word)?;
    if number < NUMBER_LIMIT {
        Some(number)
    } else {
        None
    }
}

/// The amount that the word is, in decimal and without leading zeros, if it is one below 2 to the power of 64.
pub fn amount_of(word: &[u8]) -> Option<u64>
    ensures { result ≡ amount_written word.now }
{
    let amount = value_of(word)?;
    if Buffer::new().format(amount).as_bytes() == word {
        Some(amount)
    } else {
        None
    }
}

/// The number that these digits write, where it is below the limit of amounts.
fn value_of(digits: &[u8]) -> Option<u64>
    ensures { result
        ≡ (if nat_lt (value_behind 0 digits.now) (2 ^ 64) then Some (value_behind 0 digits.now) else None) }
{
    let mut number = 0;
    for digit in digits {
        number = number * 10 + u128::from(digit.saturating_sub(b'0'));
        if number >= AMOUNT_LIMIT {
            return None;
        }
    }
    Some(number as u64)
}

/// The text that a word stands for: a dot for the empty text, letters and digits for themselves.
fn text_of(word: &[u8]) -> Option<&[u8]>
    ensures { option_map (λ text. text.now) result ≡ text_in word.now }
{
    if word == b".".as_slice() {
        return Some(&word[..0]);
    }
    if is_plain(word) { Some(word) } else { None }
}

/// The key or the value that a word stands for: a text, or a number sign and the digits of its bytes.
pub fn written(word: &[u8]) -> Option<Written<'_>>
    ensures { option_map written_bytes result ≡ written_in word.now }
{
    match word {
        [b'#', digits @ ..] => Some(Written::Bytes(bytes_of(digits)?)),
        _ => Some(Written::Text(text_of(word)?)),
    }
}

/// The bytes that these digits write, two lower case hexadecimal digits each, if they write 1 to 120.
fn bytes_of(digits: &[u8]) -> Option<Value>
    ensures { result ≡ bytes_in digits.now }
{
    if digits.is_empty() || digits.len() > MOST_DIGITS || has_upper_case(digits) {
        return None;
    }
    let mut room = [0; Value::MAX_LEN];
    let bytes = &mut room[..digits.len() / 2];
    match decode_to_slice(digits, bytes) {
        Ok(()) => Value::new(bytes).ok(),
        Err(_) => None,
    }
}

fn has_upper_case(digits: &[u8]) -> bool
    ensures { result ≡ list_any is_ascii_uppercase digits.now }
{
    digits.iter().any(|digit| digit.is_ascii_uppercase())
}

/// The upper end that a word stands for: a star for none, or a key.
pub fn end_of(word: &[u8]) -> Option<Option<Written<'_>>>
    ensures { option_map (λ end. option_map written_bytes end) result ≡ end_in word.now }
{
    if word == b"*".as_slice() {
        return Some(None);
    }
    let key = written(word)?;
    Some(Some(key))
}

/// Whether the word is one or more letters or digits.
fn is_plain(word: &[u8]) -> bool
    ensures { result ≡ is_plain word.now }
{
    !word.is_empty() && is_alphanumeric(word)
}

/// Whether these are letters and digits alone.
pub fn is_alphanumeric(word: &[u8]) -> bool
    ensures { result ≡ list_all is_ascii_alphanumeric word.now }
{
    word.iter().all(|byte| byte.is_ascii_alphanumeric())
}
