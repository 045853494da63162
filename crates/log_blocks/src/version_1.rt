//! Blocks as version 1 spelled them. They are read and no longer written.
ghost use Rattle.std.specs.Prelude.{◌≡◌, ◌++◌};
ghost use Rattle.md5.specs.Md5.{md5};
ghost use Rattle.log_blocks.specs.Blocks.{old_sealed};

use crate::heads::{SEAL, SUM};
use byteorder::{BigEndian, ByteOrder};
use md5::{Digest, Md5};

/// How long a block's head was.
pub(crate) const OLD_HEAD_LEN: usize = 40;

// The first byte of a head: a log's length is far below what needs it.
pub(crate) const OLD_VERSION: u8 = 0;

/// The first 24 bytes of the head of a block at a place of the file.
pub(crate) fn old_front(place: u64, start: u64, len: u64) -> [u8; SUM]
    ensures { result ≡ old_sealed place start len }
{
    let mut front = [0; SUM];
    BigEndian::write_u64(&mut front, start);
    BigEndian::write_u64(&mut front[8..], len);
    let seal = digest(&place.to_be_bytes(), &front[..SEAL]);
    front[SEAL..].copy_from_slice(&seal[..SUM - SEAL]);
    front
}

/// The MD5 of one after the other.
pub(crate) fn digest(first: &[u8], second: &[u8]) -> [u8; 16]
    ensures { result ≡ md5 (first.now ++ second.now) }
{
    let mut hasher = Md5::new();
    hasher.update(first);
    hasher.update(second);
    hasher.finalize()
}
