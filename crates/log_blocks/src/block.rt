//! One block after another.
ghost use Rattle.std.specs.Prelude.{◌≡◌, ◌<◌, ◌≤◌, ◌+◌, ◌^◌, ◌++◌, [], ℕ, List, length, slice_index, take, true, Ok, Some, None, IfOk, IfErr, IfSome};
ghost use Rattle.log_blocks.specs.Blocks.{Write, Old, New, start_of, bytes_of, head_len, block_of, front_of, beginning, packed, passed, written, CanStand, Keeps, EndsWithin, IsUnpacked, IsDamaged};
ghost use Rattle.log_blocks.specs.Steps.{found, IsFound};

use crate::before::Before;
use crate::heads::{HEAD_LEN, front};
use crate::sums::{sum_all, sum_pairs};
use crate::version_1::{OLD_HEAD_LEN, OLD_VERSION, digest, old_front};
use byteorder::{BigEndian, ByteOrder};

/// A block isn't what was written. It begins at this byte of the file, the first one being 0.
#[derive(Clone, Copy, Debug, PartialEq, Eq, Drop)]
pub struct Damaged {
    pub place: u64,
}

/// What a file's bytes are taken apart into.
#[derive(Clone, Copy, Debug, PartialEq, Eq, Drop)]
pub struct Unpacked {
    /// How many of the bytes are the log's now, from the first on.
    pub len: usize,
    /// Where the last whole block ended. Behind it there may be a torn one.
    pub end: usize,
    /// The checksum of all up to there, which the next block's head is made from.
    pub sum: u64,
}

/// The bytes of a block in the file, from a place on, and in the log: they go behind its first `start`, and the log has no
/// others behind these.
#[derive(Clone, Copy)]
pub(crate) struct Block {
    start: usize,
    from: usize,
    len: usize,
    // What stands before the next block.
    after: Before,
}

/// Makes of the bytes of a file of a store's those of its log, which take the place of the first ones. The store's number
/// is 0 where it began as version 1. Refused at the first place where neither a block stands nor the file ends within one.
/// What was written is read back, also where the last block is torn.
pub fn unpack(file: &mut [u8], store: u64) -> Result<Unpacked, Damaged>
    ensures len { IfOk result (λ unpacked. unpacked.len ≤ unpacked.end) }
    ensures end { IfOk result (λ unpacked. unpacked.end ≤ length file.new) }
    ensures room { length file.new ≡ length file.old }
    ensures read { (ws : List Write) → Keeps store file.old ws → result ≡ Ok (record {
      len = length (written [] ws);
      end = length (packed (beginning store) ws);
      sum = (passed (beginning store) ws).sum;
    }) }
    ensures log { (ws : List Write) → Keeps store file.old ws
        → take (length (written [] ws)) file.new ≡ written [] ws }
    ensures unpacked { IfOk result (λ unpacked.
        IsUnpacked store file.old file.new unpacked.len unpacked.end unpacked.sum) }
    ensures refused { IfErr result (λ damaged. IsDamaged store file.old damaged.place) }
{
    let mut before = Before {
        place: 0,
        sum: store,
        takes_old: store == 0,
    };
    let mut len = 0;
    while let Some(block) = block_at(&file[before.place..], before, len)? {
        file.copy_within(block.from..block.from + block.len, block.start);
        len = block.start + block.len;
        before = block.after;
    }
    Ok(Unpacked {
        len,
        end: before.place,
        sum: before.sum,
    })
}

/// The block with which the rest of a file begins, where the log has so many bytes before it; none where the file ends
/// within it. Only a head whose own checksum is right says where that is: so a length that is damaged isn't taken for a
/// torn block.
fn block_at(left: &[u8], before: Before, len: usize) -> Result<Option<Block>, Damaged>
    requires { before.place + length left.now < 2 ^ 64 }
    ensures whole { (w : Write) (rest : List ℕ) → left.now ≡ block_of before w ++ rest → CanStand before w
        → start_of w ≤ len → result ≡ Ok (Some (found before w)) }
    ensures ends { EndsWithin before left.now → result ≡ Ok None }
    ensures start { IfOk result (λ found. IfSome found (λ block. block.start ≤ len)) }
    ensures from { IfOk result (λ found. IfSome found (λ block. before.place < block.from)) }
    ensures to { IfOk result (λ found. IfSome found (λ block. block.from + block.len ≡ block.after.place)) }
    ensures end { IfOk result (λ found. IfSome found (λ block. block.after.place ≤ before.place + length left.now)) }
    ensures right { IfOk result (λ found. IfSome found (λ block. IsFound before left.now len block)) }
    ensures none { result ≡ Ok None → EndsWithin before left.now }
    ensures refused { IfErr result (λ damaged. damaged.place ≡ before.place) }
{
    if left.len() < HEAD_LEN {
        return Ok(None);
    }
    if before.takes_old && left[0] == OLD_VERSION {
        old_block(left, before, len)
    } else {
        new_block(left, before, len)
    }
}

fn new_block(left: &[u8], before: Before, len: usize) -> Result<Option<Block>, Damaged>
    requires head { 32 ≤ length left.now }
    requires place { before.place + length left.now < 2 ^ 64 }
    ensures whole { (start : ℕ) (bytes rest : List ℕ) → left.now ≡ block_of before (New start bytes) ++ rest
        → start < 2 ^ 56 → start ≤ len → result ≡ Ok (Some (found before (New start bytes))) }
    ensures ends { (start : ℕ) (bytes : List ℕ) → take 24 left.now ≡ front_of before (New start bytes) → start < 2 ^ 56
        → length bytes < 2 ^ 64 → length left.now < 32 + length bytes → result ≡ Ok None }
    ensures start { IfOk result (λ found. IfSome found (λ block. block.start ≤ len)) }
    ensures from { IfOk result (λ found. IfSome found (λ block. before.place < block.from)) }
    ensures to { IfOk result (λ found. IfSome found (λ block. block.from + block.len ≡ block.after.place)) }
    ensures end { IfOk result (λ found. IfSome found (λ block. block.after.place ≤ before.place + length left.now)) }
    ensures right { IfOk result (λ found. IfSome found (λ block. IsFound before left.now len block)) }
    ensures none { result ≡ Ok None → EndsWithin before left.now }
    ensures refused { IfErr result (λ damaged. damaged.place ≡ before.place) }
{
    let (head, bytes) = left.split_at(HEAD_LEN);
    let start = BigEndian::read_uint(&head[1..], 7);
    let size = BigEndian::read_u64(&head[8..]);
    let (front, seal) = front(before.sum, start, size);
    let damaged = Damaged {
        place: before.place as u64,
    };
    if !head.starts_with(&front) {
        return Err(damaged);
    }
    if (bytes.len() as u64) < size {
        return Ok(None);
    }
    let size = size as usize;
    let sum = sum_all(seal, &bytes[..size]);
    if (len as u64) < start || !head.ends_with(&sum.to_be_bytes()) {
        return Err(damaged);
    }
    let from = before.place + HEAD_LEN;
    let after = Before {
        place: from + size,
        sum,
        takes_old: false,
    };
    Ok(Some(Block {
        start: start as usize,
        from,
        len: size,
        after,
    }))
}

fn old_block(left: &[u8], before: Before, len: usize) -> Result<Option<Block>, Damaged>
    requires version { before.takes_old ≡ true }
    requires first { slice_index left.now 0 ≡ 0 }
    requires place { before.place + length left.now < 2 ^ 64 }
    ensures whole { (start : ℕ) (bytes rest : List ℕ) → left.now ≡ block_of before (Old start bytes) ++ rest
        → start < 2 ^ 56 → start ≤ len → result ≡ Ok (Some (found before (Old start bytes))) }
    ensures ends { (start : ℕ) (bytes : List ℕ) → take 24 left.now ≡ front_of before (Old start bytes) → start < 2 ^ 56
        → length bytes < 2 ^ 64 → length left.now < 40 + length bytes → result ≡ Ok None }
    ensures in_head { length left.now < 40 → result ≡ Ok None }
    ensures start { IfOk result (λ found. IfSome found (λ block. block.start ≤ len)) }
    ensures from { IfOk result (λ found. IfSome found (λ block. before.place < block.from)) }
    ensures to { IfOk result (λ found. IfSome found (λ block. block.from + block.len ≡ block.after.place)) }
    ensures end { IfOk result (λ found. IfSome found (λ block. block.after.place ≤ before.place + length left.now)) }
    ensures right { IfOk result (λ found. IfSome found (λ block. IsFound before left.now len block)) }
    ensures none { result ≡ Ok None → EndsWithin before left.now }
    ensures refused { IfErr result (λ damaged. damaged.place ≡ before.place) }
{
    if left.len() < OLD_HEAD_LEN {
        return Ok(None);
    }
    let (head, bytes) = left.split_at(OLD_HEAD_LEN);
    let start = BigEndian::read_u64(head);
    let size = BigEndian::read_u64(&head[8..]);
    let front = old_front(before.place as u64, start, size);
    let damaged = Damaged {
        place: before.place as u64,
    };
    if !head.starts_with(&front) {
        return Err(damaged);
    }
    if (bytes.len() as u64) < size {
        return Ok(None);
    }
    let size = size as usize;
    let sum = digest(&front, &bytes[..size]);
    if (len as u64) < start || !head.ends_with(&sum) {
        return Err(damaged);
    }
    let from = before.place + OLD_HEAD_LEN;
    let after = Before {
        place: from + size,
        sum: sum_pairs(before.sum, &sum),
        takes_old: true,
    };
    Ok(Some(Block {
        start: start as usize,
        from,
        len: size,
        after,
    }))
}
