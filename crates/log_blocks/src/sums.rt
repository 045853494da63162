//! The checksum that runs through a file: that of SQLite's log, as a number. It goes on from the checksum of what stands
//! before, so it is one of all bytes up to an end.
ghost use Rattle.std.specs.Prelude.{◌≡◌};
ghost use Rattle.log_blocks.specs.Blocks.{pairs_summed, summed};

use sqlite_wal::checksum_of;

const HALF: u64 = 0x1_0000_0000;

/// How many bytes the checksum takes at a time.
const PAIR: usize = 8;

/// Goes on over whole pairs of words alone, without the bytes behind the last one.
pub(crate) fn sum_pairs(sum: u64, bytes: &[u8]) -> u64
    ensures { result ≡ pairs_summed sum bytes.now }
{
    let (first, second) = checksum_of(true, ((sum / HALF) as u32, (sum % HALF) as u32), bytes);
    first as u64 * HALF + second as u64
}

/// Goes on over all bytes, and zeros that make the last ones a whole pair. So the length has to be known elsewhere.
pub(crate) fn sum_all(sum: u64, bytes: &[u8]) -> u64
    ensures { result ≡ summed sum bytes.now }
{
    let rest = &bytes[bytes.len() / PAIR * PAIR..];
    let mut last = [0; PAIR];
    last[..rest.len()].copy_from_slice(rest);
    sum_pairs(sum_pairs(sum, bytes), &last)
}
