//! The keys and values of a client's records.
ghost use Rattle.std.specs.Prelude.{◌≡◌, IfOk, flat_map};
ghost use Rattle.shell_pool.specs.Words.{client_key, round_key, round_value};

use arrayvec::ArrayString;
use itoa::Buffer;
use record_key::{Key, Refusal, Value};

/// The key that a client writes in each round. Takes no memory. Refused TooLong.
pub fn client_key(client: u64) -> Result<Key, Refusal>
    ensures { IfOk result (λ key. key ≡ client_key client) }
{
    let mut digits = Buffer::new();
    let word = joined(&["s", digits.format(client)])?;
    Key::new(word.as_str().as_bytes())
}

/// The key that a client inserts in this round alone. Takes no memory. Refused TooLong.
pub fn round_key(client: u64, round: u64) -> Result<Key, Refusal>
    ensures { IfOk result (λ key. key ≡ round_key client round) }
{
    let mut digits = Buffer::new();
    let mut more = Buffer::new();
    let word = joined(&["s", digits.format(client), "r", more.format(round)])?;
    Key::new(word.as_str().as_bytes())
}

/// The value that is written in a round. Takes no memory. Refused TooLong.
pub fn round_value(round: u64) -> Result<Value, Refusal>
    ensures { IfOk result (λ value. value ≡ round_value round) }
{
    Value::new(Buffer::new().format(round).as_bytes())
}

// The parts, one after another. Refused TooLong where they are no key.
fn joined(parts: &[&str]) -> Result<ArrayString<{ Key::MAX_LEN }>, Refusal>
    ensures { IfOk result (λ word. word.bytes ≡ flat_map (λ p. p.now) parts.now) }
{
    let mut word = ArrayString::new();
    for part in parts {
        if word.try_push_str(part).is_err() {
            return Err(Refusal::TooLong);
        }
    }
    Ok(word)
}
