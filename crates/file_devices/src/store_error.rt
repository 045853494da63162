//! Why a store isn't opened.
use log_blocks::Damaged;
use std::alloc::AllocError;
use std::{fmt, io};
use thiserror::Error;

#[derive(Clone, Copy, Debug, Error)]
pub enum StoreError {
    /// Another opening of the store lives, in this process or another.
    #[error("the store is in use: another opening holds the lock of its file `store`")]
    Locked,
    /// The folder isn't there, or has no file `store`, or one whose text is no more than begun; where a store may be made,
    /// there are other files.
    #[error("no store: the folder has no file `store` of one, or one that is no more than begun")]
    NotAStore,
    /// The file `store` has another text, or is no more than begun beside a log that isn't empty.
    #[error("the file `store` is of another format or version: it is neither `jakumshe store 1` nor one of version 2")]
    Version,
    /// The folder has something else under this name: a folder, a pipe or a device.
    #[error("{file} is no plain file")]
    NotAFile {
        file: StoreFile,
    },
    /// The file `store` says that the log has had a block, and the log has none.
    #[error("the store's file `log` has no block, and its file `store` says that it has had one")]
    Emptied,
    /// A block of the log's file isn't what was written. It begins at this byte of the file, the first one being 0.
    #[error("the store's file `log`: the block at byte {place} isn't what was written there")]
    Damaged {
        place: u64,
    },
    /// The folder of the pages has a file that isn't named as a page's is.
    #[error("the store's folder `pages` has a file that is no page's")]
    NotAPage,
    /// The file of this page isn't what was written there.
    #[error("the store's folder `pages`: the file of page {id} isn't what was written there")]
    PageDamaged {
        id: u64,
    },
    /// The system refused a call: what was tried, of which file, and what the system answered.
    #[error("cannot {tried} {file}: {cause}")]
    Io {
        tried: Tried,
        file: StoreFile,
        cause: io::Error,
    },
    /// The log doesn't fit into memory, or the system has none left.
    #[error("out of memory")]
    NoMemory,
}

impl StoreError {
    /// A system that has no memory left says so as an error of its own.
    pub(crate) fn new(tried: Tried, file: StoreFile, cause: io::Error) -> StoreError {
        if cause.kind() == io::ErrorKind::OutOfMemory {
            return StoreError::NoMemory;
        }
        StoreError::Io { tried, file, cause }
    }
}

impl From<Damaged> for StoreError {
    fn from(damaged: Damaged) -> StoreError {
        StoreError::Damaged {
            place: damaged.place,
        }
    }
}

impl From<AllocError> for StoreError {
    fn from(_: AllocError) -> StoreError {
        StoreError::NoMemory
    }
}

/// What the system refused.
#[derive(Clone, Copy, Debug, PartialEq, Eq)]
pub enum Tried {
    Make,
    Open,
    Lock,
    List,
    Read,
    Write,
    Sync,
    Rename,
}

impl fmt::Display for Tried {
    fn fmt<W: fmt::Write>(&self, f: &mut fmt::Formatter<W>) -> fmt::Result {
        f.write_str(match self {
            Tried::Make => "make",
            Tried::Open => "open",
            Tried::Lock => "lock",
            Tried::List => "list",
            Tried::Read => "read",
            Tried::Write => "write",
            Tried::Sync => "sync",
            Tried::Rename => "rename",
        })
    }
}

/// What it was refused of.
#[derive(Clone, Copy, Debug, PartialEq, Eq)]
pub enum StoreFile {
    Folder,
    /// The folder that has the store's.
    Parent,
    Mark,
    Log,
    /// What is to take the place of that.
    NewLog,
    /// The folder that keeps pages.
    Pages,
    /// A file there.
    Page,
    /// What is to take the place of that.
    NewPage,
    /// Where the system gives random numbers.
    Random,
}

impl fmt::Display for StoreFile {
    fn fmt<W: fmt::Write>(&self, f: &mut fmt::Formatter<W>) -> fmt::Result {
        f.write_str(match self {
            StoreFile::Folder => "the store's folder",
            StoreFile::Parent => "the folder above the store's",
            StoreFile::Mark => "the store's file `store`",
            StoreFile::Log => "the store's file `log`",
            StoreFile::NewLog => "the store's file `log.new`",
            StoreFile::Pages => "the store's folder `pages`",
            StoreFile::Page => "a file of the store's folder `pages`",
            StoreFile::NewPage => "the store's file `pages/new`",
            StoreFile::Random => "`/dev/urandom`",
        })
    }
}
