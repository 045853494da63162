//! Bytes that give their place in a vector to more or to fewer.
ghost use Rattle.std.specs.Prelude.{◌≡◌, ◌<◌, ◌≤◌, ◌+◌, ◌-◌, ◌++◌, length, take, drop, vec_len};
ghost use Rattle.std.specs.Vec.{vec_capacity};
ghost use Rattle.codec.specs.Fields.{text};

/// How many bytes are moved at a time. The library moves each by itself, where they overlap, or clears four kilobytes.
const BLOCK: usize = 256;

/// Gives so many bytes the place of those from `start` to `end`; what they are isn't said. There is room.
pub(crate) fn fit(bytes: &mut Vec<u8>, start: usize, end: usize, len: usize)
    requires ordered { start ≤ end }
    requires within { end ≤ vec_len bytes.old }
    requires room { vec_len bytes.old + len ≤ vec_capacity bytes.old + (end - start) }
    ensures before { take start bytes.new.items ≡ take start bytes.old.items }
    ensures after { drop (start + len) bytes.new.items ≡ drop end bytes.old.items }
    ensures count { vec_len bytes.new + end ≡ start + len + vec_len bytes.old }
{
    let had = end - start;
    if had < len {
        let more = len - had;
        match bytes.resize(bytes.len() + more, 0) {
            Ok(()) => {}
            Err(_) => unreachable!(),
        }
        move_up(bytes.as_mut_slice(), end, more);
    } else if len < had {
        let less = had - len;
        let left = bytes.len() - less;
        move_down(bytes.as_mut_slice(), start + len, less);
        bytes.truncate(left);
    }
}

/// Moves the bytes from a place on up to the end, over the last `by`.
fn move_up(bytes: &mut [u8], from: usize, by: usize)
    requires { from + by ≤ length bytes.old }
    ensures before { take from bytes.new ≡ take from bytes.old }
    ensures moved { drop (from + by) bytes.new ≡ drop from (take (length bytes.old - by) bytes.old) }
    ensures count { length bytes.new ≡ length bytes.old }
{
    let mut left = bytes.len() - by;
    while left > from {
        let count = (left - from).min(BLOCK);
        left -= count;
        move_block(bytes, left, left + by, count);
    }
}

/// Moves the bytes that stand `by` behind a place down to it. What the last `by` are then isn't said.
fn move_down(bytes: &mut [u8], to: usize, by: usize)
    requires { to + by ≤ length bytes.old }
    ensures moved { take (length bytes.old - by) bytes.new ≡ take to bytes.old ++ drop (to + by) bytes.old }
    ensures count { length bytes.new ≡ length bytes.old }
{
    let end = bytes.len() - by;
    let mut at = to;
    while at < end {
        let count = (end - at).min(BLOCK);
        move_block(bytes, at + by, at, count);
        at += count;
    }
}

/// Copies a few bytes to another place, which may overlap theirs.
fn move_block(bytes: &mut [u8], from: usize, to: usize, count: usize)
    requires few { count ≤ 256 }
    requires from { from + count ≤ length bytes.old }
    requires to { to + count ≤ length bytes.old }
    ensures { bytes.new ≡ take to bytes.old ++ (take count (drop from bytes.old) ++ drop (to + count) bytes.old) }
{
    let mut block = [0; BLOCK];
    block[..count].copy_from_slice(&bytes[from..from + count]);
    bytes[to..to + count].copy_from_slice(&block[..count]);
}

/// Writes the text behind its length over what stands from a place on.
pub(crate) fn put_text_at(bytes: &mut Vec<u8>, at: usize, part: &[u8])
    requires short { length part.now < 256 }
    requires within { at + (1 + length part.now) ≤ vec_len bytes.old }
    ensures written { bytes.new.items
        ≡ take at bytes.old.items ++ (text part.now ++ drop (at + (1 + length part.now)) bytes.old.items) }
    ensures count { vec_len bytes.new ≡ vec_len bytes.old }
{
    bytes[at] = part.len() as u8;
    bytes[at + 1..at + 1 + part.len()].copy_from_slice(part);
}
