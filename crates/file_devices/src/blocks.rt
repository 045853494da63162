//! The blocks of a log's file that was opened: how many there are, and where a byte of the log stands.
use crate::store::read_log;
use crate::store_error::StoreError;
use log_blocks::HEAD_LEN;
use std::fs::{File, Files};

// What stands before the bytes of a block of version 1, and the first byte of such a block.
const OLD_HEAD_LEN: usize = 40;

const OLD_VERSION: u8 = 0;

/// The version stands above these bits of a start.
const START: u64 = (1 << 56) - 1;

/// A block of a file: where it begins in the log and how many bytes of that it has, behind how many of its head.
#[derive(Clone, Copy)]
struct Block {
    start: u64,
    len: u64,
    head: u64,
}

/// At which byte the file of the log in a folder has this byte of the log, the first one of either being 0. The file's
/// blocks are taken for whole: an opening has looked at them.
pub fn place_in_file<R: Files<File = File> + AllocGlobal>(
    rt: &R,
    folder: &str,
    byte: u64,
) -> Result<Option<u64>, StoreError> {
    let file = read_log(rt, folder)?;
    Ok(place_of(&file, byte))
}

/// How many blocks the file of the log in a folder has.
pub fn count_blocks<R: Files<File = File> + AllocGlobal>(
    rt: &R,
    folder: &str,
) -> Result<u64, StoreError> {
    let file = read_log(rt, folder)?;
    let mut left = file.as_slice();
    for count in 0..u64::MAX {
        match first_block(left) {
            Some((_, rest)) => left = rest,
            None => return Ok(count),
        }
    }
    Ok(u64::MAX)
}

/// How many bytes of the log the first block of its file has: after a compaction all that were left.
pub fn first_len<R: Files<File = File> + AllocGlobal>(
    rt: &R,
    folder: &str,
) -> Result<u64, StoreError> {
    let file = read_log(rt, folder)?;
    match first_block(&file) {
        Some((block, _)) => Ok(block.len),
        None => Ok(0),
    }
}

/// Each block cuts the log to its start: a byte behind that stands in it, or nowhere up to the next block.
fn place_of(file: &[u8], byte: u64) -> Option<u64> {
    let mut found = None;
    let mut place = 0u64;
    let mut left = file;
    for _ in 0..u64::MAX {
        let Some((block, rest)) = first_block(left) else {
            break;
        };
        if let Some(within) = byte.checked_sub(block.start) {
            found = block.place_of(place, within);
        }
        place = place.saturating_add(block.head).saturating_add(block.len);
        left = rest;
    }
    found
}

impl Block {
    /// Where a block that stands here has this byte of those that it has.
    fn place_of(self, place: u64, within: u64) -> Option<u64> {
        if within < self.len {
            Some(place.saturating_add(self.head).saturating_add(within))
        } else {
            None
        }
    }
}

/// The block with which these bytes begin, and what stands behind it.
fn first_block(bytes: &[u8]) -> Option<(Block, &[u8])> {
    let start = number_of(bytes)?;
    let len = number_of(bytes.get(8..)?)?;
    let head = match bytes.first()? {
        &OLD_VERSION => OLD_HEAD_LEN,
        _ => HEAD_LEN,
    };
    let end = (head as u64).checked_add(len)?;
    let block = Block {
        start: start & START,
        len,
        head: head as u64,
    };
    Some((block, bytes.get(end as usize..)?))
}

/// The number in the first 8 bytes.
fn number_of(bytes: &[u8]) -> Option<u64> {
    let mut number = [0; 8];
    number.copy_from_slice(bytes.get(..8)?);
    Some(u64::from_be_bytes(number))
}
