//! The keys and values of the work, drawn from numbers as the other programs that are measured draw them.
use record_key::{Key, Refusal, Value};
use std::alloc::Global;

/// How many keys there are. Those with an even number are loaded first.
pub const KEYS: u64 = 20_000;

/// How many values begin at different places of the pool.
const PLACES: u64 = 4096;

const LONGEST_VALUE: u64 = 120;

/// The step of the splitmix64 generator (Steele, Lea, Flood, 2014).
pub fn mix(number: u64) -> u64 {
    let x = number.wrapping_add(0x9e37_79b9_7f4a_7c15);
    let x = (x ^ (x >> 30)).wrapping_mul(0xbf58_476d_1ce4_e5b9);
    let x = (x ^ (x >> 27)).wrapping_mul(0x94d0_49bb_1331_11eb);
    x ^ (x >> 31)
}

/// A key of 11 to 32 bytes: `k`, the number's ten digits, and the letter `x`.
pub fn key_of(number: u64) -> Result<Key, Refusal> {
    let mut text = [b'x'; 32];
    text[0] = b'k';
    let mut left = number;
    for place in 0..10 {
        text[10 - place] = b'0' + (left % 10) as u8;
        left /= 10;
    }
    let length = 11 + number % 22 * 7 % 22;
    Key::new(&text[..length as usize])
}

/// Values are cut out of one long text.
#[derive(Drop)]
pub struct Values {
    pool: Vec<u8>,
}

impl Values {
    pub fn new(alloc: Global) -> Result<Values, Refusal> {
        let letters = b"0123456789abcdefghijklmnopqrstuvwxyz";
        let mut pool = Vec::new(alloc);
        for place in 0..PLACES + LONGEST_VALUE {
            pool.push(letters[(mix(place) % 36) as usize])?;
        }
        Ok(Values { pool })
    }

    /// A value of 1 to 120 bytes.
    pub fn of(&self, draw: u64) -> Result<Value, Refusal> {
        let start = (draw % PLACES) as usize;
        let length = (1 + (draw >> 20) % LONGEST_VALUE) as usize;
        match self.pool.as_slice().get(start..start + length) {
            Some(bytes) => Value::new(bytes),
            None => Err(Refusal::TooLong),
        }
    }
}

/// The draw of a place in a workload.
pub fn draw(workload: u8, place: u64) -> u64 {
    drawn(seed(workload, 0), place)
}

/// What a client's draws begin from.
pub fn seed(workload: u8, client: u8) -> u64 {
    mix(u64::from(workload) << 8 | u64::from(client))
}

/// The draw of a place in a client's work.
pub fn drawn(seed: u64, place: u64) -> u64 {
    mix(seed.wrapping_add(place))
}
