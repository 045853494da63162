//! The file `store`, which makes its folder a store: it names the format, its version and the store's number, and holds
//! the lock.
ghost use Rattle.std.specs.Prelude.{◌≡◌, length};

use crate::folder;
use crate::store_error::{StoreError, StoreFile, Tried};
use std::alloc::Global;
use std::fs::{File, Files, TryLockError};
use std::io::Read;
use std::os::unix::fs::FileExt;
use std::{fs, io};

pub(crate) const NAME: &str = "store";

const OLD_TEXT: &[u8] = b"jakumshe store 1\n";

const BEGINNING: &[u8] = b"jakumshe store 2 ";

// Behind the beginning the number has 16 digits, and the line ends.
const DIGITS_END: usize = 33;

const LEN: usize = 34;

/// What a store that began as version 1 has for a number.
pub(crate) const OLD_NUMBER: u64 = 0;

/// What the file says.
#[derive(Clone, Copy, PartialEq, Eq)]
pub(crate) enum Mark {
    /// A store of version 1, which has no block of version 2.
    Old,
    /// A store of this number that has had a block.
    Whole(u64),
    /// A store of this number, and no block that was forced is behind it: the line doesn't end.
    Numbered(u64),
    /// A beginning, perhaps nothing: a store that was about to be made.
    Begun,
    /// Another text.
    Other,
}

/// What is still to be written.
#[derive(Clone, Copy, PartialEq, Eq)]
enum Due {
    Nothing,
    /// All of the text, before the first block of version 2: an older program that finds such a block is to refuse the
    /// version, and not to call the block damaged.
    Text,
    /// The end of the line, behind the first block that is forced.
    LineEnd,
}

/// The locked file.
#[derive(Drop)]
pub(crate) struct MarkFile {
    file: File,
    due: Due,
}

impl MarkFile {
    /// Before a block is written.
    pub(crate) fn prepare(&mut self) -> Result<(), StoreError> {
        if self.due == Due::Text {
            self.put(&text_of(OLD_NUMBER), 0)?;
        }
        Ok(())
    }

    /// Behind a block that was forced.
    pub(crate) fn complete(&mut self) -> Result<(), StoreError> {
        if self.due == Due::LineEnd {
            self.put(b"\n", DIGITS_END as u64)?;
        }
        Ok(())
    }

    fn put(&mut self, text: &[u8], at: u64) -> Result<(), StoreError> {
        self.file.write_all_at(text, at).map_err(not_written)?;
        self.file.sync_all().map_err(not_synced)?;
        self.due = Due::Nothing;
        Ok(())
    }

    /// Writes a number that is drawn at random, without the end of the line.
    pub(crate) fn draw_number<R: Files<File = File>>(&mut self, rt: &R) -> Result<u64, StoreError> {
        let number = random(rt).map_err(|cause| StoreError::new(
            Tried::Read,
            StoreFile::Random,
            cause,
        ))?;
        self.put_number(number)?;
        Ok(number)
    }

    fn put_number(&mut self, number: u64) -> Result<(), StoreError> {
        let text = text_of(number);
        self.put(&text[..DIGITS_END], 0)?;
        self.due = Due::LineEnd;
        Ok(())
    }

    /// Takes the text as it stands, which is synced first: who wrote it may have been killed before its sync. Behind a
    /// block the end of the line is written, if a kill has come before it.
    pub(crate) fn take(&mut self, mark: Mark, has_block: bool) -> Result<(), StoreError> {
        self.file.sync_all().map_err(not_synced)?;
        self.due = match mark {
            Mark::Old => Due::Text,
            Mark::Numbered(_) => Due::LineEnd,
            _ => Due::Nothing,
        };
        if has_block {
            return self.complete();
        }
        Ok(())
    }

    pub(crate) fn read(&self, alloc: Global) -> Result<Mark, StoreError> {
        read(alloc, &self.file)
    }
}

fn not_written(cause: io::Error) -> StoreError {
    StoreError::new(Tried::Write, StoreFile::Mark, cause)
}

fn not_synced(cause: io::Error) -> StoreError {
    StoreError::new(Tried::Sync, StoreFile::Mark, cause)
}

/// Opens the file and locks it until it is closed. It is made in a folder that is empty, and never removed or replaced:
/// so of two who make a store at once, one has the lock of the file that stays.
pub(crate) fn open_locked<R: Files<File = File> + AllocGlobal + Clone + Drop>(
    rt: &R,
    folder: &str,
) -> Result<MarkFile, StoreError> {
    let file = open(rt, folder)?;
    match file.try_lock() {
        Ok(()) => Ok(MarkFile {
            file,
            due: Due::Nothing,
        }),
        Err(TryLockError::WouldBlock) => Err(StoreError::Locked),
        Err(TryLockError::Error(cause)) => {
            Err(StoreError::new(Tried::Lock, StoreFile::Mark, cause))
        }
    }
}

fn open<R: Files<File = File> + AllocGlobal + Clone + Drop>(
    rt: &R,
    folder: &str,
) -> Result<File, StoreError> {
    if folder::has(rt, folder, NAME, StoreFile::Mark)? {
        return folder::open(rt, folder, NAME, folder::Way::Both).map_err(|cause| StoreError::new(
            Tried::Open,
            StoreFile::Mark,
            cause,
        ));
    }
    // Another who makes a store here at the same time may have made the file since.
    if !folder::has_only(rt, folder, &[NAME])? {
        return Err(StoreError::NotAStore);
    }
    folder::open(rt, folder, NAME, folder::Way::Made).map_err(|cause| StoreError::new(
        Tried::Make,
        StoreFile::Mark,
        cause,
    ))
}

pub(crate) fn read(alloc: Global, mark: &File) -> Result<Mark, StoreError> {
    let mut text = Vec::new(alloc);
    // One byte more, so that a longer text is another.
    mark.take(LEN as u64 + 1).read_to_end(&mut text).map_err(|cause| StoreError::new(
        Tried::Read,
        StoreFile::Mark,
        cause,
    ))?;
    Ok(which(&text))
}

fn which(text: &[u8]) -> Mark {
    if text == OLD_TEXT {
        return Mark::Old;
    }
    match number_in(text) {
        Some(number) if text.len() == LEN => Mark::Whole(number),
        Some(number) => Mark::Numbered(number),
        None if is_begun(text) => Mark::Begun,
        None => Mark::Other,
    }
}

/// The number of a text that has one and is written as this version writes it, with the end of its line or without.
fn number_in(text: &[u8]) -> Option<u64> {
    let digits = text.get(BEGINNING.len()..DIGITS_END)?;
    let mut bytes = [0; 8];
    hex::decode_to_slice(digits, &mut bytes).ok()?;
    let number = u64::from_be_bytes(bytes);
    text_of(number).starts_with(text).then_some(number)
}

fn is_begun(text: &[u8]) -> bool {
    if OLD_TEXT.starts_with(text) || BEGINNING.starts_with(text) {
        return true;
    }
    match text.strip_prefix(BEGINNING) {
        Some(digits) => text.len() < DIGITS_END
            && digits.iter().all(|digit| digit.is_ascii_hexdigit()),
        None => false,
    }
}

fn text_of(number: u64) -> [u8; LEN]
    ensures { length result ≡ 34 }
{
    let mut text = [b'\n'; LEN];
    text[..BEGINNING.len()].copy_from_slice(BEGINNING);
    let _ = hex::encode_to_slice(number.to_be_bytes(), &mut text[BEGINNING.len()..DIGITS_END]);
    text
}

/// A number that no other store is likely to have. It is never that of a store that began as version 1.
fn random<R: Files<File = File>>(rt: &R) -> io::Result<u64> {
    let mut bytes = [0; 8];
    fs::open(rt, "/dev/urandom")?.read_exact(&mut bytes)?;
    Ok(u64::from_be_bytes(bytes).max(OLD_NUMBER + 1))
}
