//! The head of a block.
ghost use Rattle.std.specs.Prelude.{◌≡◌};
ghost use Rattle.log_blocks.specs.Blocks.{seal, sealed, sum_of, head_at};

use crate::sums::{sum_all, sum_pairs};
use byteorder::{BigEndian, ByteOrder};

/// How long a block's head is, in bytes.
pub const HEAD_LEN: usize = 32;

// The first byte of a head of version 2.
pub(crate) const VERSION: u8 = 2;

// Where the checksum of what stands before it in a head begins, and that of the whole block.
pub(crate) const SEAL: usize = 16;

pub(crate) const SUM: usize = 24;

/// The head of a block that goes behind all that has the checksum `sum`, which is the store's number where nothing does:
/// the bytes stand behind the first `start` of the log. With it the checksum of all up to the block's end.
pub fn head(sum: u64, start: u64, bytes: &[u8]) -> ([u8; HEAD_LEN], u64)
    ensures head { result.0 ≡ head_at sum start bytes.now }
    ensures sum { result.1 ≡ sum_of sum start bytes.now }
{
    let (front, seal) = front(sum, start, bytes.len() as u64);
    let sum = sum_all(seal, bytes);
    let mut head = [0; HEAD_LEN];
    head[..SUM].copy_from_slice(&front);
    head[SUM..].copy_from_slice(&sum.to_be_bytes());
    (head, sum)
}

/// The first 24 bytes of the head, and the checksum that they end with.
pub(crate) fn front(sum: u64, start: u64, len: u64) -> ([u8; SUM], u64)
    ensures front { result.0 ≡ sealed sum start len }
    ensures seal { result.1 ≡ seal sum start len }
{
    let mut front = [0; SUM];
    BigEndian::write_u64(&mut front, start);
    front[0] = VERSION;
    BigEndian::write_u64(&mut front[8..], len);
    let seal = sum_pairs(sum, &front[..SEAL]);
    BigEndian::write_u64(&mut front[SEAL..], seal);
    (front, seal)
}
